// Why a call of a session is refused.
ghost use Rattle.std.specs.Prelude.{◌≡◌, Some};
ghost use Rattle.calls.specs.Causes.{meaning_of, number_of};

use std::error::Error;
use std::fmt;

/// Why a call of a session is refused, with the number of each cause.
#[derive(Clone, Copy, PartialEq, Eq, Debug)]
pub enum SessionCause {
    StoreTooSmall = 11,
    UnlawfulGlobal = 12,
    NotAtRest = 13,
    NoSuchGlobal = 14,
    UnlawfulWord = 15,
    NoSuchRun = 16,
    WrongGrant = 17,
    RunIsOver = 18,
    NoRunLeft = 19,
    StoreFails = 26,
}

// The number of a refusal for that cause.
impl From<SessionCause> for u8 {
    ghost from_gives = { λ cause n. n ≡ number_of cause };

    fn from(cause: SessionCause) -> u8 {
        cause as u8
    }
}

impl SessionCause {
    /// What it means, in plain words.
    pub fn meaning(self) -> &'static str
        ensures { result.now ≡ meaning_of self }
    {
        match self {
            SessionCause::StoreTooSmall => "the store is smaller than the globals",
            SessionCause::UnlawfulGlobal => "a global's word is unlawful for the number kind",
            SessionCause::NotAtRest => "no session is at rest here",
            SessionCause::NoSuchGlobal => "there is no such global, or no such index",
            SessionCause::UnlawfulWord => "the word is unlawful for the number kind",
            SessionCause::NoSuchRun => "the ticket is of no open run",
            SessionCause::WrongGrant => "the grant is of nothing, or of too much",
            SessionCause::RunIsOver => "the run is over",
            SessionCause::NoRunLeft => "no run is left to begin",
            SessionCause::StoreFails => "the store refuses a place or holds an unlawful word",
        }
    }
}

impl fmt::Display for SessionCause {
    // by hand: the text is promised, which a derive does not state
    ghost output = { λ cause. Some (meaning_of cause) };

    fn fmt<W: fmt::Write>(&self, f: &mut fmt::Formatter<W>) -> fmt::Result {
        f.write_str(self.meaning())
    }
}

impl Error for SessionCause {}
