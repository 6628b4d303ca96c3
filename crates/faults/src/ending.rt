// How a run ends.
use crate::fault::Fault;
use lines::records::LineNumber;

#[derive(Clone, Copy, PartialEq, Eq, Debug)]
pub enum Ending {
    Finished,
    // its allowance is used up, and statements are still to be begun
    Stopped,
    Fault { fault: Fault, line: LineNumber },
}
