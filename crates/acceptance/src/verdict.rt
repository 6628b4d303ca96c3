// Whether a sheet is a script, and what it is refused for if it is not.
ghost use Rattle.std.specs.Prelude.{◌≡◌, ◌≤◌, Some, None, length, MatchResult};
ghost use Rattle.standing.specs.Records.{Resolved};
ghost use Rattle.script.specs.Causes.{number_of};
ghost use Rattle.script.specs.Tests.{or_later, refusal};
ghost use Rattle.acceptance.specs.Sheet.{lines_of};
ghost use Rattle.acceptance.specs.Verdict.{reason_of, meaning_of, told, Judged};

use crate::globals::Globals;
use crate::resolve::resolve;
use crate::sheet_lines::Sheet;
use kinds::NumberKind;
use lines::records::Record;
use std::error::Error;
use std::fmt;
use text::refusals::Refusal;

// Why a whole sheet is refused.
#[derive(Clone, Copy, PartialEq, Eq, Debug)]
pub enum SheetCause {
    OutOfForm = 6,
    NameAgain = 8,
    Undeclared = 7,
    TooDeep = 9,
    OutOfKind = 10,
}

// The number of a refusal for that cause.
impl From<SheetCause> for u8 {
    ghost from_gives = { λ cause n. n ≡ number_of (reason_of cause) };

    fn from(cause: SheetCause) -> u8 {
        cause as u8
    }
}

impl SheetCause {
    // What it means, in plain words.
    pub fn meaning(self) -> &'static str
        ensures { result.now ≡ meaning_of self }
    {
        match self {
            SheetCause::OutOfForm => "the lines do not make one script",
            SheetCause::NameAgain => "a name is declared twice",
            SheetCause::Undeclared => "a name is not declared",
            SheetCause::TooDeep => "nested deeper than 64",
            SheetCause::OutOfKind => "a constant outside the number kind",
        }
    }
}

impl fmt::Display for SheetCause {
    // by hand: the text is promised, which a derive does not state
    ghost output = { λ cause. Some (meaning_of cause) };

    fn fmt<W: fmt::Write>(&self, f: &mut fmt::Formatter<W>) -> fmt::Result {
        f.write_str(self.meaning())
    }
}

impl Error for SheetCause {}

// Whether the lines are a script for the number kind; else the first cause, in the order of the refusals, with its lowest line:
// line 0 where the sheet has none. The records of a script tell their declarations; at a refusal they stay as they are.
pub(crate) fn accept<K: NumberKind>(records: &mut [Record]) -> Result<(), Refusal<SheetCause>>
    requires { length records.old ≤ 2048 }
    ensures right { Judged K.kind.least K.kind.most (lines_of records.old) result }
    ensures refusal { told result ≡ refusal K.kind.least K.kind.most (lines_of records.old) }
    ensures records { MatchResult result (λ u. Resolved (lines_of records.old) records.new) (λ e. records.new ≡ records.old) }
{
    let globals = Globals::of(records);
    Sheet::new(records, &globals).judge::<K>()?;
    resolve(records, &globals);
    Ok(())
}

impl<'a> Sheet<'a> {
    // The checks, each for the lowest line with its fault, in the order of the refusals.
    fn judge<K: NumberKind>(&self) -> Result<(), Refusal<SheetCause>>
        ensures right { Judged K.kind.least K.kind.most self.now result }
        ensures refusal { told result ≡ refusal K.kind.least K.kind.most self.now }
    {
        pass(SheetCause::OutOfForm, self.lowest_out_of_form())?;
        pass(SheetCause::NameAgain, self.lowest_name_again())?;
        pass(SheetCause::Undeclared, self.lowest_undeclared())?;
        pass(SheetCause::TooDeep, self.lowest_too_deep())?;
        pass(SheetCause::OutOfKind, self.lowest_out_of_kind::<K>())
    }
}

// Lets a sheet pass in which no line is at fault.
fn pass(cause: SheetCause, at_fault: Option<usize>) -> Result<(), Refusal<SheetCause>>
    ensures { told result ≡ or_later (number_of (reason_of cause)) at_fault None }
{
    match at_fault {
        Some(line) => Err(Refusal { cause, line }),
        None => Ok(()),
    }
}
