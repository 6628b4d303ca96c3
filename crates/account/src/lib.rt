// What a card's account tells of it: how many lines of each kind, and as much of a line's text as can be printed.
#![tactic(auto)]

pub mod kinds_of_line;
pub mod printable;
