// What a step is about to do.
use evaluate::Writes;
use rules::{Names, Place};

// `row` is that of the process; a leaf's step and a fork move it to the place `to`. The children's rows begin at `first`: they are put
// in, or `count` of them taken out. A forward step keeps its block; an undo closes up the entry at a place.
#[derive(Clone, Copy)]
pub enum Plan {
    Leaf {
        row: usize,
        to: Place,
        writes: Writes,
        block: u32,
    },
    Fork {
        row: usize,
        to: Place,
        names: Names,
        block: u32,
        first: usize,
    },
    Merge {
        row: usize,
        block: u32,
        first: usize,
        count: usize,
    },
    UndoLeaf {
        row: usize,
        to: Place,
        writes: Writes,
        entry: usize,
    },
    UndoFork {
        row: usize,
        to: Place,
        first: usize,
        count: usize,
        entry: usize,
    },
    UndoMerge {
        row: usize,
        names: Names,
        first: usize,
        entry: usize,
    },
}
