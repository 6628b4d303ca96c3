// The reader: from the text of a sheet to its records.
ghost use Rattle.std.specs.Prelude.{◌≡◌, ℕ, ◌<◌, ◌≤◌, length, IfErr, IfOk, MatchResult, Result};
ghost use Rattle.lines.specs.declared.refusals.Cause.{Cause};
ghost use Rattle.text.specs.declared.refusals.Refusal.{Refusal};
ghost use Rattle.text.specs.Lines.{rows};
ghost use Rattle.sheet.specs.Reading.{outcome, from_line, answer, filled, FirstReads, FirstRefuses};
ghost use Rattle.sheet.specs.Verdict.{Verdict};

use lines::reading::read_line;
use lines::records::{Line, Record};
use lines::refusals::Cause;
use text::cutting::cut;
use text::refusals::Refusal;

pub const MOST_BYTES: usize = 65536;

pub const MOST_LINES: usize = 2048;

// Reads the lines of a text into the records, one a line, and gives their number: a part of the records as the result would borrow
// from them, and leave unsaid what their memory holds after. At a refusal the records of the lines before it are filled.
pub fn read_lines(text: &[u8], records: &mut [Record]) -> Result<usize, Refusal<Cause>>
    ensures answer { result ≡ answer (outcome (length records.old) text.now) }
    ensures bound { IfOk result (λ count. count ≤ length records.old) }
    ensures most { IfOk result (λ count. count ≤ 2048) }
    ensures line { IfErr result (λ refusal. refusal.line ≤ 2049) }
    ensures right { Verdict (length records.old) text.now result }
    ensures only { (s : Result ℕ (Refusal Cause)) → Verdict (length records.old) text.now s → s ≡ result }
    ensures left { records.new ≡ filled (outcome (length records.old) text.now).lines records.old }
{
    if text.is_empty() || text.len() > MOST_BYTES {
        return Err(Refusal {
            cause: Cause::TextSize,
            line: 0,
        });
    }
    fill(text, records)
}

// Reads the lines into the records, whatever the size of the text.
fn fill(text: &[u8], records: &mut [Record]) -> Result<usize, Refusal<Cause>>
    ensures answer { result ≡ answer (from_line (length records.old) 1 (rows text.now)) }
    ensures bound { IfOk result (λ count. count ≤ length records.old) }
    ensures most { IfOk result (λ count. count ≤ 2048) }
    ensures line { IfErr result (λ refusal. refusal.line ≤ 2049) }
    ensures left { records.new ≡ filled (from_line (length records.old) 1 (rows text.now)).lines records.old }
{
    let room = records.len().min(MOST_LINES);
    let mut rest = text;
    for (index, record) in records[..room].iter_mut().enumerate() {
        if rest.is_empty() {
            return Ok(index);
        }
        // A `match`: with `map_err` and `?` the proof of the refusal's line does not close.
        match next_line(rest, (index + 1) as u16) {
            Ok((line, after)) => {
                *record = Record {
                    line,
                    declaration: None,
                };
                rest = after;
            }
            Err(cause) => return Err(Refusal {
                cause,
                line: index + 1,
            }),
        }
    }
    if rest.is_empty() {
        return Ok(room);
    }
    Err(Refusal {
        cause: Cause::Room,
        line: room + 1,
    })
}

// What the first line of some text says, which is the line of that number, and the text after it.
fn next_line<'a>(text: &'a [u8], number: u16) -> Result<(Line, &'a [u8]), Cause>
    requires { 0 < length text.now }
    ensures { MatchResult result (λ p. FirstReads number text.now p.0 p.1.now) (FirstRefuses number text.now) }
{
    let (line, after) = cut(text, b'\n').ok_or(Cause::Form)?;
    Ok((read_line(line, number)?, after))
}
