// Why a sheet is refused.
ghost use Rattle.std.specs.Prelude.{◌≡◌, Some};
ghost use Rattle.lines.specs.Refusals.{number_of, meaning_of};

use std::error::Error;
use std::fmt;

#[derive(Clone, Copy, PartialEq, Eq, Debug)]
pub enum Cause {
    TextSize = 1,
    Form = 2,
    Field = 3,
    Kind = 4,
    Room = 5,
}

// The number of a refusal for that cause.
impl From<Cause> for u8 {
    ghost from_gives = { λ cause n. n ≡ number_of cause };

    fn from(cause: Cause) -> u8 {
        cause as u8
    }
}

impl Cause {
    // What it means, in plain words.
    pub fn meaning(self) -> &'static str
        ensures { result.now ≡ meaning_of self }
    {
        match self {
            Cause::TextSize => "the sheet has no byte, or more than 65536",
            Cause::Form => "the line does not end, or has not just six fields",
            Cause::Field => "a field is not a number of its range",
            Cause::Kind => "the kind is not one known character",
            Cause::Room => "the line is past 2048, or no record is left for it",
        }
    }
}

impl fmt::Display for Cause {
    // by hand: the text is promised, which a derive does not state
    ghost output = { λ cause. Some (meaning_of cause) };

    fn fmt<W: fmt::Write>(&self, f: &mut fmt::Formatter<W>) -> fmt::Result {
        f.write_str(self.meaning())
    }
}

impl Error for Cause {}
