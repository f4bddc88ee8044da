// The list on the lent words, document 01: the codes of judging, then the readiness answers on the decoded blocks.
ghost use Rattle.std.specs.Prelude.{◌≡◌, List, length};
ghost use Rattle.rules.specs.List.{list as List·list};
ghost use Rattle.rules.specs.declared.Row as Declared;
ghost use Rattle.accepted.specs.Listed.{listed};

use rules::{Refused, Row};

// Any image and any words: the 64 rows, or a refusal, which leaves whatever rows are lent.
pub fn ready(image: &[u8], words: &[u32]) -> Result<[Row; 64], Refused>
    ensures { (lent : List Declared.Row) → length lent ≡ 64 → listed result lent ≡ List·list image.now words.now lent }
{
    let program = decode::decode(image)?;
    let blocks = program.blocks();
    judge::judge_blocks(blocks)?;
    accepted::readiness::ready_on(words, blocks)
}
