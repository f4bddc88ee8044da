// The scan that decides code 27: whether a later kept step writes what this one reads, or reads what it writes. That this is the
// graph's three conditions is a law of crate laws.
ghost use Rattle.std.specs.Prelude.{◌≡◌, not, ◌||◌, List, ◌<◌, length, eqb};
ghost use Rattle.std.specs.Int.Bits.{bit_and};
ghost use Rattle.rules.specs.declared.Block.{Block};
ghost use Rattle.masks.specs.Masks.{MasksOf};
ghost use Rattle.cause.specs.Held.{Scanned, later_conflict};

use machine::BLOCK;
use masks::Masks;

// Whether two masks have a resource in common.
fn meets(a: u64, b: u64) -> bool
    ensures { result ≡ not (eqb (bit_and a b) 0) }
{
    a & b != 0
}

// Whether a step with the first two masks conflicts with one that has the others.
fn conflict(reads: u64, writes: u64, after: u64, changes: u64) -> bool
    ensures { result ≡ (not (eqb (bit_and writes after) 0) || not (eqb (bit_and reads changes) 0)) }
{
    meets(writes, after) || meets(reads, changes)
}

// Whether some entry after i conflicts with it.
pub fn held(m: &[u32], masks: &Masks, i: usize) -> bool
    requires { Scanned m.now i 128 }
    ensures { (program : List Block) → MasksOf program masks.now → Scanned m.now i (length program) → result ≡ later_conflict program m.now i }
{
    let b = m[BLOCK + 2 * i] as usize;
    let reads = masks.reads[b];
    let writes = masks.writes[b];
    for j in i + 1..m[1] as usize {
        let c = m[BLOCK + 2 * j] as usize;
        if conflict(reads, writes, masks.reads[c], masks.writes[c]) {
            return true;
        }
    }
    false
}
