// The copy rule, and the laws that hold of it.
#![tactic(auto)]

pub mod laws;
