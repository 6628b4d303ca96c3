// One run of a text, and its report.
ghost use Rattle.std.specs.Prelude.{◌≡◌, ℕ, List, length, IfErr, IfOk, Ok, Result};
ghost use Rattle.kinds.specs.Whole.{whole};
ghost use Rattle.text.specs.declared.refusals.Refusal.{Refusal};
ghost use Rattle.sheet.specs.Reading.{outcome};
ghost use Rattle.acceptance.specs.declared.scripts.ScriptCause.{ScriptCause};
ghost use Rattle.acceptance.specs.Scripts.{LeftAs};
ghost use Rattle.acceptance.specs.Sheet.{lines_of};
ghost use Rattle.calls.specs.declared.asked.Answer.TheVariants.{Closed};
ghost use Rattle.field.specs.Closed.{IsClosed};
ghost use Rattle.field.specs.Report.{Reads, Writes};

use acceptance::scripts::{Script, read_script};
use calls::asked::{Answer, Call};
use faults::Ending;
use kinds::Whole;
use lines::records::Record;
use report::{BlankReport, refusal_report};
use session::playing::{Reply, play};
use std::alloc::{AllocError, Global};
use stores::Store;

// How many statements the run is allowed.
const ALLOWANCE: u32 = 1_000_000;

/// Reads a script for whole numbers from the text, with the records as memory, one a line; opens a session of it over the store; makes one
/// run, which is allowed 1,000,000 statements; and gives the report of it: a line for the run's ending, and then a line for each cell of the
/// globals. Where the text is no script, or the session is not opened, the report is one line with the refusal.
///
/// # Errors
///
/// `AllocError` where the heap has no room for the report. That shows before the run, so the store is as it was. The records are in
/// every case what `read_script` leaves.
pub fn field_run<S: Store>(
    heap: Global,
    text: &[u8],
    records: &mut [Record],
    store: &mut S,
) -> Result<Vec<u8>, AllocError>
    ensures writes { IfOk result (λ report. Writes (length records.old) text.now (S.Store.words store.old) report.items (S.Store.words store.new)) }
    ensures no_memory { IfErr result (λ _. S.Store.words store.new ≡ S.Store.words store.old) }
    ensures records { (r : Result ℕ (Refusal ScriptCause)) → Reads (length records.old) text.now r → LeftAs whole.least whole.most (outcome (length records.old) text.now) records.old r records.new }
    ensures lent { S.Store.lent store.new ≡ S.Store.lent store.old }
{
    let reading = read_script::<Whole>(text, records);
    let script = match reading.script() {
        Ok(script) => script,
        Err(refusal) => {
            let refusal = refusal.numbered();
            return refusal_report(heap, refusal.cause, refusal.line as u32);
        }
    };
    run_script(heap, &script, store)
}

// The report of a script, for which there has to be room before the run.
fn run_script<S: Store>(
    heap: Global,
    script: &Script<Whole>,
    store: &mut S,
) -> Result<Vec<u8>, AllocError>
    ensures writes { IfOk result (λ report. (room n : ℕ) (text : List ℕ) → Reads room text (Ok n) → lines_of script.now ≡ (outcome room text).lines → Writes room text (S.Store.words store.old) report.items (S.Store.words store.new)) }
    ensures no_memory { IfErr result (λ _. S.Store.words store.new ≡ S.Store.words store.old) }
    ensures lent { S.Store.lent store.new ≡ S.Store.lent store.old }
{
    let blank = BlankReport::for_script(heap, script)?;
    Ok(run_once(script, store, blank))
}

// Opens a session of the script over the store, makes one run, and fills the blank report with what came of it.
fn run_once<S: Store>(script: &Script<Whole>, store: &mut S, blank: BlankReport) -> Vec<u8>
    requires { blank ≡ lines_of script.now }
    ensures writes { (room n : ℕ) (text : List ℕ) → Reads room text (Ok n) → lines_of script.now ≡ (outcome room text).lines → Writes room text (S.Store.words store.old) result.items (S.Store.words store.new) }
    ensures lent { S.Store.lent store.new ≡ S.Store.lent store.old }
{
    let calls = [
        Call::Open,
        Call::Begin,
        Call::Grant {
            ticket: 1,
            count: ALLOWANCE,
        },
        Call::Close { ticket: 1 },
    ];
    let mut replies = [Ok(Answer::Opened); 4];
    play(script, store, &calls, &mut replies);
    if let Err(refusal) = replies[0] {
        let refusal = refusal.numbered();
        return blank.of_refusal(refusal.cause, refusal.line as u32);
    }
    let (ending, count) = closing_of(replies[3]);
    blank.of_run(ending, count, store)
}

// What a close that was answered tells.
fn closing_of(reply: Reply) -> (Ending, u32)
    requires { IsClosed reply }
    ensures { reply ≡ Ok (Closed result.0 result.1) }
{
    match reply {
        Ok(Answer::Closed { ending, count }) => (ending, count),
        _ => unreachable!(),
    }
}
