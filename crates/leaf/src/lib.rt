// The step of a leaf, forward and undo, on the machine's words (document 01, "Steps"). Everything here only reads,
// and answers by value what the step would write.
#![tactic(auto)]

pub mod place;
pub mod plan;
