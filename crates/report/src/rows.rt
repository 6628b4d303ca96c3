// The lines of a report, each put after those before it, where there is room for it.
ghost use Rattle.std.specs.Prelude.{◌≡◌, ◌+◌, ◌*◌, ◌≤◌, ◌++◌, length, slice_index, vec_len, vec_capacity};
ghost use Rattle.faults.specs.Endings.{in_rule};
ghost use Rattle.script.specs.Apart.{globals_of, heads};
ghost use Rattle.acceptance.specs.Scopes.{cells_of};
ghost use Rattle.acceptance.specs.Sheet.{lines_of};
ghost use Rattle.report.specs.Rows.{element_rows, ending_row, global_rows, refusal_row, row, rows_from};

use acceptance::globals::cells_of;
use faults::Ending;
use lines::records::{Line, Name, Record};
use stores::Store;
use text::written::WrittenLine;

// No line is longer: a letter, three commas with ten digits each, and byte 10.
pub(crate) const ROW_BYTES: usize = 35;

fn write_row(lines: &mut Vec<u8>, letter: u8, first: u32, second: u32, third: u32)
    requires { vec_len lines.old + 35 ≤ vec_capacity lines.old }
    ensures items { lines.new.items ≡ lines.old.items ++ row letter first second third }
    ensures len { vec_len lines.new ≤ vec_len lines.old + 35 }
    ensures capacity { vec_capacity lines.old ≤ vec_capacity lines.new }
{
    let line = WrittenLine {
        letter,
        first,
        second,
        third,
    };
    let mut buffer = [0; ROW_BYTES];
    let length = line.write(&mut buffer).unwrap();
    lines.extend_from_slice(&buffer[..length]).unwrap();
}

pub(crate) fn write_refusal(lines: &mut Vec<u8>, cause: u8, line: u32)
    requires { vec_len lines.old + 35 ≤ vec_capacity lines.old }
    ensures { lines.new.items ≡ lines.old.items ++ refusal_row cause line }
{
    write_row(lines, b'r', cause as u32, line, 0);
}

pub(crate) fn write_ending(lines: &mut Vec<u8>, ending: Ending, count: u32)
    requires { vec_len lines.old + 35 ≤ vec_capacity lines.old }
    ensures items { lines.new.items ≡ lines.old.items ++ ending_row (in_rule ending) count }
    ensures len { vec_len lines.new ≤ vec_len lines.old + 35 }
    ensures capacity { vec_capacity lines.old ≤ vec_capacity lines.new }
{
    match ending {
        Ending::Finished => write_row(lines, b'f', 0, 0, count),
        Ending::Stopped => write_row(lines, b's', 0, 0, count),
        Ending::Fault { fault, line } => {
            write_row(lines, b'x', u8::from(fault) as u32, line as u32, count);
        }
    }
}

// The word of a cell; 0 where the store has no such cell, which is none of an opened script's globals.
fn word_at<S: Store>(store: &S, cell: u32) -> u32
    ensures { result ≡ slice_index (S.Store.words store.now) cell }
{
    store.load(cell as usize).unwrap_or(0)
}

// The lines of an array's elements, whose words are in the cells from the first on.
fn write_elements<S: Store>(lines: &mut Vec<u8>, name: Name, length: u16, store: &S, first: u32)
    requires room { vec_len lines.old + 35 * length ≤ vec_capacity lines.old }
    requires first { first ≤ 65535 * 2048 }
    ensures items { lines.new.items ≡ lines.old.items ++ element_rows (S.Store.words store.now) name 0 first length }
    ensures len { vec_len lines.new ≤ vec_len lines.old + 35 * length }
    ensures capacity { vec_capacity lines.old ≤ vec_capacity lines.new }
{
    for index in 0..length {
        let word = word_at(store, first + index as u32);
        write_row(lines, b'a', name as u32, index as u32, word);
    }
}

// The lines of a global, whose words are in the cells from the first on.
fn write_global<S: Store>(lines: &mut Vec<u8>, name: Name, length: u16, store: &S, first: u32)
    requires room { vec_len lines.old + 35 * cells_of length ≤ vec_capacity lines.old }
    requires first { first ≤ 65535 * 2048 }
    ensures items { lines.new.items ≡ lines.old.items ++ global_rows (S.Store.words store.now) first name length }
    ensures len { vec_len lines.new ≤ vec_len lines.old + 35 * cells_of length }
    ensures capacity { vec_capacity lines.old ≤ vec_capacity lines.new }
{
    if length == 0 {
        write_row(lines, b'x', name as u32, 0, word_at(store, first));
    } else {
        write_elements(lines, name, length, store, first);
    }
}

// The lines of all globals.
pub(crate) fn write_globals<S: Store>(lines: &mut Vec<u8>, records: &[Record], store: &S)
    requires few { length records.now ≤ 2048 }
    requires room { vec_len lines.old + 35 * (globals_of (lines_of records.now)).taken ≤ vec_capacity lines.old }
    ensures { lines.new.items ≡ lines.old.items ++ rows_from (S.Store.words store.now) 0 (heads (lines_of records.now)) }
{
    let mut first: u32 = 0;
    for record in records {
        let Line::Global { name, length } = record.line else {
            return;
        };
        write_global(lines, name, length, store, first);
        first += cells_of(length);
    }
}
