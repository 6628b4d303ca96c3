// The text of a card: its lines, their fields, spelled numbers, and lines written for a reader.
#![tactic(auto)]

pub mod cutting;
pub mod fields;
pub mod lines;
pub mod numbers;
pub mod refusals;
pub mod written;
