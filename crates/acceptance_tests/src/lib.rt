// Examples of whole sheets: which are accepted, what their names belong to, and what the others are refused for.
#![tactic(auto)]

#[cfg(test)]
mod declarations;
#[cfg(test)]
mod samples;
#[cfg(test)]
mod verdicts;
