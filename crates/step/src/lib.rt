// One step of a live process, document 01, "Steps": first a plan, which only reads, then its commit on the machine's words. Here is
// what a plan is. It names rows and entries by their place; the laws in proofs/ take it to rules' step, which names them by identifier.
#![tactic(auto)]

pub mod call;
pub mod plan;
