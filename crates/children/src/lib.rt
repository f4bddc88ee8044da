// The children's rows that a fork, or the undo of a merge, puts in.
#![tactic(auto)]

ghost use Rattle.std.specs.Prelude.{◌≡◌, ◌+◌, ◌≤◌, ◌<◌, length, get_or};
ghost use Rattle.rules.specs.Format.{named};
ghost use Rattle.rules.specs.Machine.{pack_rows};
ghost use Rattle.rules.specs.Step.{child_rows};
ghost use Rattle.change.specs.Words.{inserted_rows};

use identifier::Identifier;
use rules::Names;

// Words of a row.
const ROW: usize = 3;

// The words of eight rows: children 1 to 8 of p, each at its label and at one stage. A call of fewer labels takes the first rows.
fn eight_rows(p: u32, stage: u32, labels: &[u8; 8]) -> [u32; 24]
    requires { p < 268435456 }
    ensures { result ≡ pack_rows (child_rows p stage 1 labels.now) }
{
    let parent = Identifier::from(p);
    let mut rows = [0; 24];
    for (i, label) in labels.iter().enumerate() {
        rows[ROW * i] = parent.child(i as u32 + 1).number;
        rows[ROW * i + 1] = u32::from(*label);
        rows[ROW * i + 2] = stage;
    }
    rows
}

// Puts the rows of p's children in, at row i.
pub fn insert(m: &mut [u32], i: usize, p: u32, stage: u32, names: Names)
    requires { (length m.old ≡ 8674) × (i ≤ get_or m.old 0 0) × (get_or m.old 0 0 + names.count ≤ 64) × (names.count ≤ 8) × (p < 268435456) }
    ensures { m.new ≡ inserted_rows m.old i names.count (pack_rows (child_rows p stage 1 (named names))) }
{
    let rows = eight_rows(p, stage, &names.labels);
    let n = usize::from(names.count);
    change::insert_rows(m, i, n, &rows[..ROW * n]);
}
