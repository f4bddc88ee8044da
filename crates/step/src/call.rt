// What a block calls, if it calls.
ghost use Rattle.std.specs.Prelude.{◌≡◌, false, MatchOption};
ghost use Rattle.rules.specs.Read.{is_call};
ghost use Rattle.rules.specs.declared.Instruction.{Instruction};

use rules::{Instruction, Names};

pub fn call_of(i: Instruction) -> Option<Names>
    ensures { MatchOption result (is_call i ≡ false) (λ names. i ≡ Instruction.Call names) }
{
    match i {
        Instruction::Call(names) => Some(names),
        _ => None,
    }
}
