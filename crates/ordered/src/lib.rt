// Words in order: the clauses of code 17 that need no program, and the search for a row by halves among words in order.
#![tactic(auto)]

pub mod find;
pub mod words;
