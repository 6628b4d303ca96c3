// Whole reports, written into room that was set aside for them.
ghost use Rattle.std.specs.Prelude.{◌≡◌, List, IfOk, vec_capacity};
ghost use Rattle.faults.specs.Endings.{in_rule};
ghost use Rattle.lines.specs.declared.records.Line.{Line};
ghost use Rattle.acceptance.specs.Sheet.{lines_of};
ghost use Rattle.report.specs.Blank.{IsBlank};
ghost use Rattle.report.specs.Rows.{refusal_row, run_rows};

use crate::rows::{ROW_BYTES, write_ending, write_globals, write_refusal};
use acceptance::scripts::Script;
use faults::Ending;
use kinds::NumberKind;
use lines::records::Record;
use std::alloc::{AllocError, Global};
use std::marker::Model;
use stores::Store;

/// The report of a script's run, still to be written, with room for whatever the run comes to. So it is made before the run,
/// and after the run no lack of memory can keep the report back.
#[derive(Drop)]
pub struct BlankReport<'r> {
    records: &'r [Record],
    lines: Vec<u8>,
}

// It stands for the lines of the script that it is for.
impl<'r> Model for BlankReport<'r> {
    ghost Value = { List Line };

    ghost view = { λ blank. lines_of blank.records.now };

    ghost invariant = { λ blank. IsBlank blank.records.now blank.lines.items (vec_capacity blank.lines) };
}

impl<'r> BlankReport<'r> {
    /// A blank report for a run of the script, in memory of the heap: 35 bytes for the ending, and for each cell of the globals.
    ///
    /// # Errors
    ///
    /// `AllocError` where the heap has no room for those.
    pub fn for_script<K: NumberKind>(
        heap: Global,
        script: &Script<'r, K>,
    ) -> Result<BlankReport<'r>, AllocError>
        ensures { IfOk result (λ blank. blank ≡ lines_of script.now) }
    {
        let rows = script.cells() as usize + 1;
        let lines = Vec::with_capacity(heap, ROW_BYTES * rows)?;
        Ok(BlankReport {
            records: script.records(),
            lines,
        })
    }

    /// The report of a refusal: one line, with the cause's number and the line at fault (0 where none is).
    pub fn of_refusal(self, cause: u8, line: u32) -> Vec<u8>
        ensures { result.items ≡ refusal_row cause line }
    {
        let mut lines = self.lines;
        write_refusal(&mut lines, cause, line);
        lines
    }

    /// The report of a run that ended so, after it began `count` statements, and left the store as it is: a line for the ending, and
    /// then a line for each cell of the globals.
    pub fn of_run<S: Store>(self, ending: Ending, count: u32, store: &S) -> Vec<u8>
        ensures { result.items ≡ run_rows self.entry (in_rule ending) count (S.Store.words store.now) }
    {
        let mut lines = self.lines;
        write_ending(&mut lines, ending, count);
        write_globals(&mut lines, self.records, store);
        lines
    }
}

/// The report of a refusal where there is no script: as `BlankReport::of_refusal`.
///
/// # Errors
///
/// `AllocError` where the heap has no room for the line.
pub fn refusal_report(heap: Global, cause: u8, line: u32) -> Result<Vec<u8>, AllocError>
    ensures { IfOk result (λ lines. lines.items ≡ refusal_row cause line) }
{
    let mut lines = Vec::with_capacity(heap, ROW_BYTES)?;
    write_refusal(&mut lines, cause, line);
    Ok(lines)
}
