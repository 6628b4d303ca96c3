// Sessions: a script opened over a store, whose globals are posted to and read, and whose runs are begun, granted and closed.
#![tactic(auto)]

mod opening;
pub mod playing;
pub mod runs;
pub mod sessions;
#[cfg(test)]
mod tests;
pub mod tickets;
