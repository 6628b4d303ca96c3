// Reads a sheet from standard input and tells what the card holds, or why it is refused.
#![tactic(auto)]

mod words;

use acceptance::scripts::read_script;
use account::kinds_of_line::count_kind;
use account::printable::printable_part;
use card_input::read_card;
use kinds::{NumberKind, Single, Whole};
use lines::records::{Line, Name, Record};
use sheet::reader::{MOST_LINES, read_lines};
use std::str::from_utf8;
use text::lines::line_text;
use words::KINDS;

// What the lines say.
fn tell_lines(rt: &impl Print, records: &[Record]) -> anyhow::Result<()> {
    println!(rt; "accepted as lines: {}", records.len())?;
    for (character, words) in KINDS {
        let count = count_kind(records, character);
        println!(rt; "{} {words}: {count}", character as char)?;
    }
    for record in records {
        if let Line::Global { name, length } = record.line {
            tell_global(rt, name, length)?;
        }
    }
    Ok(())
}

// Whether the text is a script for a number kind, which is named in words.
fn tell_acceptance<K: NumberKind>(
    rt: &impl Print,
    text: &[u8],
    records: &mut [Record],
    kind: &str,
) -> anyhow::Result<()> {
    let reading = read_script::<K>(text, records);
    let Err(refusal) = reading.script() else {
        println!(rt; "accepted for {kind}")?;
        return Ok(());
    };
    println!(rt; "refused for {kind}: {refusal}")?;
    tell_line(rt, text, refusal.line)
}

fn tell_global(rt: &impl Print, name: Name, length: u16) -> anyhow::Result<()> {
    if length == 0 {
        println!(rt; "global simple variable {name}")?;
    } else {
        println!(rt; "global array {name} of length {length}")?;
    }
    Ok(())
}

// The text of a line, as far as it can be printed.
fn tell_line(rt: &impl Print, text: &[u8], number: usize) -> anyhow::Result<()> {
    let Some(line) = line_text(text, number) else {
        return Ok(());
    };
    if let Ok(words) = from_utf8(printable_part(line)) {
        println!(rt; "line {number}: {words}")?;
    }
    Ok(())
}

fn main(rt: HostRuntime) -> anyhow::Result<()> {
    let bytes = read_card(rt.alloc(), &mut rt.reader())?;
    let text = bytes.as_slice();
    let mut records = vec![in rt.alloc(); Record::BLANK; MOST_LINES]?;
    match read_lines(text, &mut records) {
        Ok(count) => {
            tell_lines(&rt, &records[..count])?;
            tell_acceptance::<Whole>(&rt, text, &mut records, "whole numbers")?;
            tell_acceptance::<Single>(&rt, text, &mut records, "singles")
        }
        Err(refusal) => {
            println!(rt; "refused: {refusal}")?;
            tell_line(&rt, text, refusal.line)
        }
    }
}
