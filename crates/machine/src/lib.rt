// The machine: one lent slice of 8,674 words, with each field at its fixed word (document 01, "The machine"). Here are the words'
// places, the start, and the search for a process's row.
#![tactic(auto)]

pub mod find;
pub mod start;

// The words of a machine and of a first memory.
pub const WORDS: usize = 8674;

pub const MEMORY_WORDS: usize = 288;

// Where the memory, the process rows and the history begin.
pub const MEMORY: usize = 2;

pub const ROWS: usize = 290;

pub const HISTORY: usize = 482;

// Where the label and the stage of the first row stand, and the block of the first history entry.
pub const LABEL: usize = 291;

pub const STAGE: usize = 292;

pub const BLOCK: usize = 483;

// The most rows and history entries.
pub const MOST_ROWS: usize = 64;

pub const MOST_KEPT: u32 = 4096;
