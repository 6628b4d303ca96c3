// Calls and answers as values.
use acceptance::globals::GlobalSort;
use faults::Ending;
use lines::records::Name;

/// A cell of a script's globals.
#[derive(Clone, Copy, PartialEq, Eq, Debug)]
pub struct GlobalCell {
    pub sort: GlobalSort,
    pub name: Name,
    /// from 0; of a simple variable 0
    pub index: u16,
}

/// What can be asked of a caller's place for a session.
#[derive(Clone, Copy, PartialEq, Eq, Debug)]
pub enum Call {
    /// opens a session of the script; the place then holds it, whatever it held, or none where the opening is refused
    Open,
    Post { global: GlobalCell, word: u32 },
    Reading { global: GlobalCell },
    Begin,
    /// more allowance for a run, which goes on with it
    Grant { ticket: u32, count: u32 },
    Close { ticket: u32 },
}

/// What is answered to a call that is not refused.
#[derive(Clone, Copy, PartialEq, Eq, Debug)]
pub enum Answer {
    Opened,
    Posted,
    Word(u32),
    Began { ticket: u32 },
    /// to a grant: all of it is used up, and more is to be done
    Running,
    /// to a grant: nothing is left to be done
    Over,
    /// how the run ended, and how many statements it began
    Closed { ending: Ending, count: u32 },
}
