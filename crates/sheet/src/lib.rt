// A sheet: the reader that fills its records.
#![tactic(auto)]

pub mod reader;
