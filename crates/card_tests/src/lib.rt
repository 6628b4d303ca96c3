// Examples of cards: sheets that are read whole, and damaged ones with the refusal of each.
#![tactic(auto)]

#[cfg(test)]
mod reading;
#[cfg(test)]
mod samples;
#[cfg(test)]
mod writing;
