// A card, from a reader to its report on a writer.
ghost use Rattle.std.specs.Prelude.{ℕ, IfSome, OnOk, take};
ghost use Rattle.std.specs.Io.{WritesAtMost};
ghost use Rattle.std.specs.Io.KnownBytes.{Appends, WriteAppends};
ghost use Rattle.card_input.specs.Reading.{LosesAtMost, most_read};
ghost use Rattle.field.specs.Card.{CardTold, FrontTold};

use crate::run::field_run;
use card_input::read_card;
use lines::records::Record;
use sheet::reader::MOST_LINES;
use std::alloc::Global;
use std::io;
use std::io::{ErrorKind, Read, Write};
use stores::WordTable;

// How many cells the store has.
const CELLS: usize = 1024;

// One write, tried again where a signal interrupts it.
fn write_once<W: Write>(writer: &mut W, bytes: &[u8]) -> io::Result<usize>
    ensures within { WritesAtMost result bytes.now }
    ensures taken { WriteAppends (W.contents writer.old) (W.contents writer.new) result bytes.now }
{
    for _ in 0..u64::MAX {
        match writer.write(bytes) {
            Ok(count) => return Ok(count),
            Err(error) => {
                if error.kind() != ErrorKind::Interrupted {
                    return Err(error);
                }
            }
        }
    }
    Err(ErrorKind::TimedOut.into())
}

// Writes a report. After an error the writer has taken a front of it, which std's `write_all` does not say.
fn write_report<W: Write>(writer: &mut W, report: &[u8]) -> io::Result<()>
    ensures whole { OnOk result (Appends (W.contents writer.old) (W.contents writer.new) report.now) }
    ensures front { (n : ℕ) × Appends (W.contents writer.old) (W.contents writer.new) (take n report.now) }
{
    let mut written = 0;
    while written < report.len() {
        let count = write_once(writer, &report[written..])?;
        if count == 0 {
            return Err(ErrorKind::WriteZero.into());
        }
        written += count;
    }
    Ok(())
}

/// Reads a card to its end, or to its 65,537th byte, which is enough to refuse it, and no further; makes one run of it over 1,024 zero words; and
/// writes the report (`field_run`), and nothing else.
///
/// # Errors
///
/// The reader's error, `OutOfMemory` where the heap has no room for the card, for 2,048 records or for the report, and the writer's error, or
/// `WriteZero` where it takes no more. What was written then is a front of the card's report; nothing, where the reader or the heap failed.
pub fn run_card<R: Read, W: Write>(heap: Global, reader: &mut R, writer: &mut W) -> io::Result<()>
    ensures read { LosesAtMost most_read (R.remaining reader.old) (R.remaining reader.new) }
    ensures told { OnOk result (IfSome (R.remaining reader.old) (λ card. CardTold card (W.contents writer.old) (W.contents writer.new))) }
    ensures front { IfSome (R.remaining reader.old) (λ card. FrontTold card (W.contents writer.old) (W.contents writer.new)) }
{
    let card = read_card(heap, reader)?;
    let mut records = vec![in heap; Record::BLANK; MOST_LINES]?;
    let mut cells = [0; CELLS];
    let mut store = WordTable::new(&mut cells);
    let report = field_run(heap, &card, &mut records, &mut store)?;
    write_report(writer, &report)
}
