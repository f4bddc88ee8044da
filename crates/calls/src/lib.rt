// Codes 14 and 15, on a table of which labels each block calls.
#![tactic(auto)]

mod circles;
mod peaks;
mod table;

pub use circles::fourteen;
pub use peaks::main_peak;
pub use table::Calls;

// Labels are bytes.
const LABELS: usize = 256;
