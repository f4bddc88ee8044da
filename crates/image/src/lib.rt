// The records of an image: document 01, "The image", and codes 2, 3, 4, 6, 7 and 8 of "Judging". A cursor goes by value; each
// of its methods reads one record, with those that must follow it, and hands back the moved cursor or the refusal.
#![tactic(auto)]

mod call;
mod entry;
mod exit;
mod expression;
mod instruction;
mod operand;
mod record;

use rules::Code;

// The offset that moves past each record.
#[derive(Clone, Copy)]
pub struct Cursor {
    pub at: usize,
}

// A refusal: its code, and its place.
#[derive(Clone, Copy)]
pub struct Fault {
    pub code: Code,
    pub place: usize,
}
