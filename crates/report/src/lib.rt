// What a program writes of a run, or of a refusal: lines of a letter and three numbers.
#![tactic(auto)]

mod blank;
mod rows;

pub use blank::{BlankReport, refusal_report};
