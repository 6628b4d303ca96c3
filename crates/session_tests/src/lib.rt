// Examples of sessions over both stores: the refusals of calls, in their order, but 19, for which a session would have to begin 4,294,967,295 runs;
// runs of the sample card, grant by grant; and tickets.
#![tactic(auto)]

#[cfg(test)]
mod calls_made;
#[cfg(test)]
mod openings;
#[cfg(test)]
mod runs;
#[cfg(test)]
mod samples;
#[cfg(test)]
mod tickets;
