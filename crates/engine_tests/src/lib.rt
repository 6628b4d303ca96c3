// Examples of runs: how far each comes, and what it leaves in the store.
#![tactic(auto)]

#[cfg(test)]
mod runs;
