// The newest entry of a process, and the scan that decides code 27 (document 01, "The cause graph").
#![tactic(auto)]

pub mod held;
pub mod newest;
