// Tickets: who begins a run gets one, and has to hand it back to a close.
ghost use Rattle.std.specs.Prelude.{◌≡◌};

use calls::causes::SessionCause;
use text::refusals::Refusal;

/// The ticket of a run. It counts by the run's number alone. It is not `Drop`, and only a session makes or spends one: the check refuses a program
/// that lets one go, or makes up its own.
pub struct Ticket {
    pub(crate) run: u32,
}

impl Ticket {
    /// The run's number, from 1.
    pub fn number(&self) -> u32
        ensures { result ≡ self.now.run }
    {
        self.run
    }
}

/// A close that was refused: the ticket, handed back, and why.
pub struct Unclosed {
    pub ticket: Ticket,
    pub refusal: Refusal<SessionCause>,
}
