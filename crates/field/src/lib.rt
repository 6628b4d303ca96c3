// The task of a unit's program: a text is read as a script for whole numbers, a session of it is opened, and one run is made.
#![tactic(auto)]

mod card;
pub mod laws;
mod run;
#[cfg(test)]
mod tests;

pub use card::run_card;
pub use run::field_run;
