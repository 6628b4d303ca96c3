// How a run of a script ends, and why it faults.
#![tactic(auto)]

mod ending;
mod fault;
pub mod laws;

pub use ending::Ending;
pub use fault::Fault;
