// Holds sessions to lists of calls made elsewhere: says of each file, for both stores, of how many lists each call got the answer that it should.
#![tactic(auto)]

ghost use Rattle.std.specs.Prelude.{◌≡◌, ◌+◌, length, min, IfOk, IsTrue, if◌then◌else◌};
ghost use Rattle.std.specs.String.{string_bytes};
ghost use Rattle.sheet.specs.Reading.{outcome};
ghost use Rattle.call_vectors.specs.Lists.{CameOut, IsRight};

mod cases;
mod spelling;

use acceptance::scripts::{Script, read_script};
use anyhow::bail;
use calls::asked::{Answer, Call};
use cases::{Case, case_of};
use kinds::{NumberKind, Single, Whole};
use lines::records::Record;
use session::playing::{Reply, play};
use sheet::reader::MOST_LINES;
use spelling::{call_of, lines_text};
use std::alloc::{AllocError, Global};
use std::fs;
use stores::{ByteImage, Store, WordTable};

const FILES: [&str; 3] = ["calls.txt", "edge_calls.txt", "openings.txt"];

// How many lists came out as they should, and how many did not.
#[derive(Drop)]
struct Tally {
    right: u32,
    wrong: u32,
}

impl Tally {
    fn count(&mut self, right: bool)
        ensures right { self.new.right ≡ (if right then min (self.old.right + 1) 4294967295 else self.old.right) }
        ensures wrong { self.new.wrong ≡ (if right then self.old.wrong else min (self.old.wrong + 1) 4294967295) }
    {
        if right {
            self.right = self.right.saturating_add(1);
        } else {
            self.wrong = self.wrong.saturating_add(1);
        }
    }
}

// The calls of a list; an error where a line spells none. It only finds them: whether they are those of the list is seen when all of it is spelled again.
fn calls_of(heap: Global, case: &Case) -> anyhow::Result<Vec<Call>> {
    let mut calls = Vec::new(heap);
    for line in case.calls.lines() {
        let Some((call, _)) = line.split_once(" = ") else {
            bail!("a line is no call with its answer");
        };
        let Some(call) = call_of(heap, call)? else {
            bail!("a line spells no call");
        };
        calls.push(call)?;
    }
    Ok(calls)
}

// The lines of some calls with the replies that they get in a session of the script over the store, with memory for those.
fn told<K: NumberKind, S: Store>(
    heap: Global,
    script: &Script<K>,
    store: &mut S,
    calls: &[Call],
    replies: &mut [Reply],
) -> Result<String, AllocError>
    ensures { IfOk result (λ text. CameOut K.kind script.now (S.Store.words store.old) (string_bytes text) (S.Store.words store.new)) }
{
    let made = play(script, store, calls, replies);
    lines_text(heap, &calls[..made], &replies[..made])
}

// Whether the calls of a list, with the replies that they get, are the list.
fn plays_right<K: NumberKind, S: Store>(
    heap: Global,
    case: &Case,
    script: &Script<K>,
    store: &mut S,
) -> anyhow::Result<bool>
    ensures { IfOk result (λ right. IsTrue right → CameOut K.kind script.now (S.Store.words store.old) case.now.calls.now (S.Store.words store.new)) }
{
    let calls = calls_of(heap, case)?;
    let mut replies = vec![in heap; Ok(Answer::Posted); calls.len()]?;
    let text = told(heap, script, store, &calls, &mut replies)?;
    Ok(text.as_str() == case.calls)
}

// The same where the script is still to be read; not right where the sheet is no script.
fn is_right<K: NumberKind, S: Store>(
    heap: Global,
    case: &Case,
    records: &mut [Record],
    store: &mut S,
) -> anyhow::Result<bool>
    ensures { IfOk result (λ right. IsTrue right → IsRight K.kind (outcome (length records.old) case.now.sheet.now) (S.Store.words store.old) case.now.calls.now (S.Store.words store.new)) }
{
    let reading = read_script::<K>(case.sheet.as_bytes(), records);
    let Ok(script) = reading.script() else {
        return Ok(false);
    };
    plays_right(heap, case, &script, store)
}

fn is_right_for_kind<S: Store>(
    heap: Global,
    case: &Case,
    records: &mut [Record],
    store: &mut S,
) -> anyhow::Result<bool> {
    match case.kind {
        "whole" => is_right::<Whole, S>(heap, case, records, store),
        "single" => is_right::<Single, S>(heap, case, records, store),
        _ => bail!("a list is of no number kind"),
    }
}

// Holds the sessions over both stores to the lists of one file, and says what came of it.
fn hold(rt: HostRuntime, file: &str, records: &mut [Record]) -> anyhow::Result<()> {
    let text = fs::read_to_string(&rt, file)?;
    let heap = rt.alloc();
    let mut tables = Tally { right: 0, wrong: 0 };
    let mut images = Tally { right: 0, wrong: 0 };
    for part in text.split_terminator("end\n") {
        let Some(case) = case_of(part) else {
            bail!("a part of a file spells no list of calls");
        };
        let mut words = case.words(heap)?;
        tables.count(is_right_for_kind(heap, &case, records, &mut WordTable::new(&mut words))?);
        let mut image = case.bytes(heap)?;
        images.count(is_right_for_kind(heap, &case, records, &mut ByteImage::new(&mut image))?);
    }
    println!(rt;
        "{file} over tables: right {}, wrong {}",
        tables.right, tables.wrong
    )?;
    println!(rt;
        "{file} over images: right {}, wrong {}",
        images.right, images.wrong
    )?;
    Ok(())
}

fn main(rt: HostRuntime) -> anyhow::Result<()> {
    let mut records = vec![in rt.alloc(); Record::BLANK; MOST_LINES]?;
    for file in FILES {
        hold(rt, file, &mut records)?;
    }
    Ok(())
}
