// The text of a script: what its lines mean together, and which sheets are scripts.
#![tactic(auto)]

pub mod laws;
