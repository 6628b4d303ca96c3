// Holds the task of a unit's program to sheets made elsewhere: says of each file, for both stores, of how many sheets it writes just the lines that it
// should.
#![tactic(auto)]

ghost use Rattle.std.specs.Prelude.{◌≡◌, ◌+◌, length, min, IfOk, IsTrue, if◌then◌else◌};
ghost use Rattle.field.specs.Report.{Writes};

mod cases;

use cases::{Case, Cases};
use field::field_run;
use lines::records::Record;
use sheet::reader::MOST_LINES;
use std::alloc::{AllocError, Global};
use std::fs;
use stores::{ByteImage, Store, WordTable};

const CELLS: usize = 1024;

const FILES: [&str; 2] = ["runs.txt", "edge_runs.txt"];

// How many cases came out as they should, and how many did not.
#[derive(Drop)]
struct Tally {
    right: u32,
    wrong: u32,
}

impl Tally {
    fn count(&mut self, right: bool)
        ensures right { self.new.right ≡ (if right then min (self.old.right + 1) 4294967295 else self.old.right) }
        ensures wrong { self.new.wrong ≡ (if right then self.old.wrong else min (self.old.wrong + 1) 4294967295) }
    {
        if right {
            self.right = self.right.saturating_add(1);
        } else {
            self.wrong = self.wrong.saturating_add(1);
        }
    }
}

// Whether the lines that are written of a sheet are those wanted.
fn is_right<S: Store>(
    heap: Global,
    case: &Case,
    records: &mut [Record],
    store: &mut S,
) -> Result<bool, AllocError>
    ensures { IfOk result (λ right. IsTrue right → Writes (length records.old) case.now.sheet.now (S.Store.words store.old) case.now.want.now (S.Store.words store.new)) }
{
    let lines = field_run(heap, case.sheet, records, store)?;
    Ok(lines.as_slice() == case.want)
}

// Holds the task over both stores to the sheets of one file, and says what came of it.
fn hold(rt: HostRuntime, file: &str, records: &mut [Record]) -> anyhow::Result<()> {
    let text = fs::read(&rt, file)?;
    let mut tables = Tally { right: 0, wrong: 0 };
    let mut images = Tally { right: 0, wrong: 0 };
    let mut cases = Cases {
        rest: text.as_slice(),
    };
    for case in &mut cases {
        let mut cells = [0; CELLS];
        let mut table = WordTable::new(&mut cells);
        tables.count(is_right(rt.alloc(), &case, records, &mut table)?);
        let mut bytes = [0; 4 * CELLS];
        let mut image = ByteImage::new(&mut bytes);
        images.count(is_right(rt.alloc(), &case, records, &mut image)?);
    }
    println!(rt;
        "{file} over tables: right {}, wrong {}",
        tables.right, tables.wrong
    )?;
    println!(rt;
        "{file} over images: right {}, wrong {}",
        images.right, images.wrong
    )?;
    println!(rt; "{file} bytes left: {}", cases.rest.len())?;
    Ok(())
}

fn main(rt: HostRuntime) -> anyhow::Result<()> {
    let mut records = vec![in rt.alloc(); Record::BLANK; MOST_LINES]?;
    for file in FILES {
        hold(rt, file, &mut records)?;
    }
    Ok(())
}
