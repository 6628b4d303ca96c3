// The engine: it runs a script by the addresses of its lines and by environments, and replaces no text.
#![tactic(auto)]

mod frame;
mod levels;
mod run;
mod scene;
mod statements;
mod values;

pub use levels::Engine;
pub use run::{Progress, State};
