// Reading a script from the text of a sheet.
ghost use Rattle.std.specs.Prelude.{◌≡◌, ℕ, ◌≤◌, length, IfOk, Result};
ghost use Rattle.text.specs.declared.refusals.Refusal.{Refusal};
ghost use Rattle.sheet.specs.Reading.{outcome};
ghost use Rattle.acceptance.specs.declared.scripts.ScriptCause.{ScriptCause};
ghost use Rattle.acceptance.specs.Scripts.{LeftAs, RightAnswer};
ghost use Rattle.acceptance.specs.Readings.{answer_of, loan_of, records_of};

use super::{Reading, ScriptCause};
use crate::verdict::accept;
use kinds::NumberKind;
use lines::records::Record;
use sheet::reader::read_lines;
use std::marker::PhantomData;
use text::refusals::Refusal;

/// Reads a script for the number kind from the text of a sheet into the records, a line each from the first on. Any text and any records will do:
/// the reading gives the script, or the refusal, which is also due where the lines are more than the records, or more than a sheet may have (2048).
///
/// Each record of a script that uses a name tells its declaration, and the records after the script's stay as they were. At a refusal the records
/// of the lines that were read say those lines and tell no declaration, and the others stay as they were. The records are lent for as long as the
/// reading lives, and are then its caller's again.
pub fn read_script<'r, K: NumberKind>(text: &[u8], records: &'r mut [Record]) -> Reading<'r, K>
    ensures same_memory { loan_of result ≡ records.entry.ghost_name }
    ensures right { RightAnswer K.kind.least K.kind.most (outcome (length records.old) text.now) (answer_of result) }
    ensures only { (s : Result ℕ (Refusal ScriptCause)) → RightAnswer K.kind.least K.kind.most (outcome (length records.old) text.now) s → s ≡ answer_of result }
    ensures bound { IfOk (answer_of result) (λ count. count ≤ length records.old) }
    ensures left { LeftAs K.kind.least K.kind.most (outcome (length records.old) text.now) records.old (answer_of result) (records_of result) }
{
    let answer = read_records::<K>(text, records);
    Reading {
        lent: records,
        answer,
        kind: PhantomData,
    }
}

// Reads the records of a script for the number kind from a text, and gives the number of its lines.
fn read_records<K: NumberKind>(
    text: &[u8],
    records: &mut [Record],
) -> Result<usize, Refusal<ScriptCause>>
    ensures right { RightAnswer K.kind.least K.kind.most (outcome (length records.old) text.now) result }
    ensures only { (s : Result ℕ (Refusal ScriptCause)) → RightAnswer K.kind.least K.kind.most (outcome (length records.old) text.now) s → s ≡ result }
    ensures bound { IfOk result (λ count. count ≤ length records.old) }
    ensures left { LeftAs K.kind.least K.kind.most (outcome (length records.old) text.now) records.old result records.new }
{
    let count = match read_lines(text, records) {
        Ok(count) => count,
        Err(Refusal { cause, line }) => return Err(Refusal {
            cause: ScriptCause::OfLine(cause),
            line,
        }),
    };
    match accept::<K>(&mut records[..count]) {
        Ok(()) => Ok(count),
        Err(Refusal { cause, line }) => Err(Refusal {
            cause: ScriptCause::OfSheet(cause),
            line,
        }),
    }
}
