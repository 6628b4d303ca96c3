// One line of a sheet: its sort, what it says as a record, and why it may be refused.
#![tactic(auto)]

pub mod reading;
pub mod records;
pub mod refusals;
pub mod shapes;
pub mod sorts;
