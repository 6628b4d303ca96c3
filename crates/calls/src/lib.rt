// The calls of a session and what they answer, and what every session promises of them.
#![tactic(auto)]

pub mod asked;
pub mod causes;
pub mod laws;
