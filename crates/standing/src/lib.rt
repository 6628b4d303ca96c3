// When the records of a sheet stand for its text.
#![tactic(auto)]

pub mod laws;
