// The direction of a step, document 01: 0 forward, 1 undo; any other number is refused with 19.
ghost use Rattle.std.specs.Prelude.{◌≡◌};
ghost use Rattle.accepted.specs.Direction.{directed};

use rules::Code;

#[derive(Clone, Copy)]
pub enum Direction {
    Forward,
    Undo,
}

impl TryFrom<u32> for Direction {
    type Error = Code;

    fn try_from(number: u32) -> Result<Direction, Code>
        ensures { result ≡ directed number }
    {
        match number {
            0 => Ok(Direction::Forward),
            1 => Ok(Direction::Undo),
            _ => Err(Code::BadDirection),
        }
    }
}
