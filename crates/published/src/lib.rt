// The published cases, each computed from the definitions by the check.
#![tactic(auto)]

pub mod table;
