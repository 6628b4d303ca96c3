// Refusals: why something is not done, and at which line.
ghost use Rattle.std.specs.Prelude.{◌≡◌, ℕ, None, IfSome};
ghost use Rattle.std.specs.Fmt.{DisplaysOnOk, DisplaysStyledOnOk, WritesOnOk};
ghost use Rattle.text.specs.Refusals.{told, without_line};

use std::error::Error;
use std::fmt;

/// A cause, and the line at fault. The line is 0 where none is at fault, since that is the number that the programs print.
#[derive(Clone, Copy, PartialEq, Eq, Debug)]
pub struct Refusal<C> {
    pub cause: C,
    pub line: usize,
}

impl<C> Refusal<C> {
    /// The refusal for a cause that puts no line at fault.
    pub fn without_line(cause: C) -> Refusal<C>
        ensures { result ≡ without_line cause }
    {
        Refusal { cause, line: 0 }
    }
}

impl<C: Into<u8>> Refusal<C> {
    /// The refusal with the number of its cause in the cause's place.
    pub fn numbered(self) -> Refusal<u8>
        ensures number { C.converts self.cause result.cause }
        ensures line { result.line ≡ self.line }
    {
        Refusal {
            cause: self.cause.into(),
            line: self.line,
        }
    }
}

// Its number, its line and what it means. A bound tells of the number only that `into` may give it, so the text is no `output`, which would be a function of the refusal.
impl<C: Copy + fmt::Display + Into<u8>> fmt::Display for Refusal<C> {
    fn fmt<W: fmt::Write>(&self, f: &mut fmt::Formatter<W>) -> fmt::Result
        ensures writes { DisplaysOnOk W.write_str_gives f.old result None f.new }
        ensures styled { DisplaysStyledOnOk W.write_str_gives f.old result None f.new }
        ensures told { (n : ℕ) × C.converts self.now.cause n × IfSome (C.output self.now.cause) (λ meaning. WritesOnOk W.write_str_gives f.old result (told n self.now.line meaning) f.new) }
    {
        let number: u8 = self.cause.into();
        write!(f, "{number} at line {}: {}", self.line, self.cause)
    }
}

impl<C: Copy + fmt::Debug + fmt::Display + Into<u8>> Error for Refusal<C> {}
