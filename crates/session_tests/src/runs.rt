// Runs of the sheet that doubles: from published words, grant by grant, and what calls answer in a run.
use crate::samples::{DOUBLE, DOUBLE_LINES, post, reading, refused, simple};
use acceptance::scripts::{ScriptCause, read_script};
use calls::asked::{Answer, Call};
use calls::causes::SessionCause;
use faults::{Ending, Fault};
use kinds::Whole;
use lines::records::Record;
use session::playing::{Reply, play};
use std::test::Fail;
use stores::{ByteImage, Store, WordTable};
use text::refusals::Refusal;

fn closed(ending: Ending, count: u32) -> Reply {
    Ok(Answer::Closed { ending, count })
}

// Whether the calls get just those replies, in a session of the sheet over the store.
fn gets<const N: usize, S: Store>(
    store: &mut S,
    calls: &[Call; N],
    wanted: &[Reply; N],
) -> Result<bool, Refusal<ScriptCause>> {
    let mut records = [Record::BLANK; DOUBLE_LINES];
    let sheet = read_script::<Whole>(DOUBLE.as_bytes(), &mut records);
    let script = sheet.script()?;
    let mut replies = [Ok(Answer::Posted); N];
    let made = play(&script, store, calls, &mut replies);
    Ok(made == N && replies == *wanted)
}

const MOST_CELLS: usize = 1024;

// The same over both stores, of so many cells.
fn gets_over_both<const N: usize>(
    cells: usize,
    calls: &[Call; N],
    wanted: &[Reply; N],
) -> Result<bool, Refusal<ScriptCause>> {
    let cells = cells.min(MOST_CELLS);
    let mut words = [0; MOST_CELLS];
    let mut table = WordTable::new(&mut words[..cells]);
    let mut bytes = [0; 4 * MOST_CELLS];
    let mut image = ByteImage::new(&mut bytes[..4 * cells]);
    Ok(gets(&mut table, calls, wanted)? && gets(&mut image, calls, wanted)?)
}

// A run from the words given, with one grant, and the words after it.
fn one_run(
    cells: usize,
    first: u32,
    ending: Ending,
    count: u32,
    second: u32,
) -> Result<bool, Refusal<ScriptCause>> {
    let calls = [
        Call::Open,
        post(simple(1, 0), first),
        post(simple(2, 0), 9),
        Call::Begin,
        Call::Grant {
            ticket: 1,
            count: 1_000_000,
        },
        Call::Close { ticket: 1 },
        reading(simple(1, 0)),
        reading(simple(2, 0)),
    ];
    let wanted = [
        Ok(Answer::Opened),
        Ok(Answer::Posted),
        Ok(Answer::Posted),
        Ok(Answer::Began { ticket: 1 }),
        Ok(Answer::Over),
        closed(ending, count),
        Ok(Answer::Word(first)),
        Ok(Answer::Word(second)),
    ];
    gets_over_both(cells, &calls, &wanted)
}

#[test]
fn published_runs(rt: HostRuntime) -> Result<(), Fail> {
    let too_deep = Ending::Fault {
        fault: Fault::TooDeep,
        line: 19,
    };
    let no_cells = Ending::Fault {
        fault: Fault::NoCells,
        line: 13,
    };
    assert_eq!(rt; one_run(1024, 0, Ending::Finished, 4, 0), Ok(true));
    assert_eq!(rt; one_run(1024, 3, Ending::Finished, 16, 6), Ok(true));
    assert_eq!(rt; one_run(1024, 255, Ending::Finished, 1024, 510), Ok(true));
    assert_eq!(rt; one_run(1024, 256, too_deep, 769, 9), Ok(true));
    assert_eq!(rt; one_run(257, 255, no_cells, 767, 9), Ok(true));
    Ok(())
}

// The run from 3, 9 has sixteen statements: grants of one each.
#[test]
fn grants_of_one(rt: HostRuntime) -> Result<(), Fail> {
    let grant = |count| Call::Grant { ticket: 1, count };
    let mut calls = [grant(1); 21];
    calls[0] = Call::Open;
    calls[1] = post(simple(1, 0), 3);
    calls[2] = post(simple(2, 0), 9);
    calls[3] = Call::Begin;
    calls[20] = Call::Close { ticket: 1 };
    let mut wanted = [Ok(Answer::Running); 21];
    wanted[0] = Ok(Answer::Opened);
    wanted[1] = Ok(Answer::Posted);
    wanted[2] = Ok(Answer::Posted);
    wanted[3] = Ok(Answer::Began { ticket: 1 });
    wanted[19] = Ok(Answer::Over);
    wanted[20] = closed(Ending::Finished, 16);
    assert_eq!(rt; gets_over_both(8, &calls, &wanted), Ok(true));
    Ok(())
}

// One grant of fifteen, which is one too few; then a new run.
#[test]
fn one_too_few(rt: HostRuntime) -> Result<(), Fail> {
    let grant = |count| Call::Grant { ticket: 1, count };
    let calls = [
        Call::Open,
        post(simple(1, 0), 3),
        Call::Begin,
        grant(15),
        Call::Close { ticket: 1 },
        reading(simple(2, 0)),
        Call::Begin,
        Call::Grant {
            ticket: 2,
            count: 16,
        },
        Call::Close { ticket: 2 },
        reading(simple(2, 0)),
    ];
    let wanted = [
        Ok(Answer::Opened),
        Ok(Answer::Posted),
        Ok(Answer::Began { ticket: 1 }),
        Ok(Answer::Running),
        closed(Ending::Stopped, 15),
        Ok(Answer::Word(4)),
        Ok(Answer::Began { ticket: 2 }),
        Ok(Answer::Over),
        closed(Ending::Finished, 16),
        Ok(Answer::Word(6)),
    ];
    assert_eq!(rt; gets_over_both(8, &calls, &wanted), Ok(true));
    Ok(())
}

// What calls are refused for before an opening, around a run and in it; where two causes hold, the first of the table.
fn refusals() -> [(Call, Reply); 22] {
    let grant = |ticket, count| Call::Grant { ticket, count };
    [
        (reading(simple(1, 0)), refused(SessionCause::NotAtRest)),
        (Call::Begin, refused(SessionCause::NotAtRest)),
        (grant(1, 5), refused(SessionCause::NoSuchRun)),
        (Call::Close { ticket: 1 }, refused(SessionCause::NoSuchRun)),
        (Call::Open, Ok(Answer::Opened)),
        (grant(1, 5), refused(SessionCause::NoSuchRun)),
        (Call::Close { ticket: 1 }, refused(SessionCause::NoSuchRun)),
        (Call::Begin, Ok(Answer::Began { ticket: 1 })),
        (Call::Begin, refused(SessionCause::NotAtRest)),
        // no such global too
        (post(simple(9, 0), 1), refused(SessionCause::NotAtRest)),
        (reading(simple(1, 0)), refused(SessionCause::NotAtRest)),
        // nothing granted too
        (grant(2, 0), refused(SessionCause::NoSuchRun)),
        (grant(1, 0), refused(SessionCause::WrongGrant)),
        (grant(1, 3), Ok(Answer::Running)),
        (grant(1, 4294967293), refused(SessionCause::WrongGrant)),
        (grant(1, 4294967292), Ok(Answer::Over)),
        // nothing granted too, and too much
        (grant(1, 0), refused(SessionCause::RunIsOver)),
        (grant(1, 4294967295), refused(SessionCause::RunIsOver)),
        (Call::Close { ticket: 2 }, refused(SessionCause::NoSuchRun)),
        (Call::Close { ticket: 1 }, closed(Ending::Finished, 4)),
        (grant(1, 1), refused(SessionCause::NoSuchRun)),
        (Call::Begin, Ok(Answer::Began { ticket: 2 })),
    ]
}

#[test]
fn calls_around_a_run(rt: HostRuntime) -> Result<(), Fail> {
    let calls = refusals().map(|(call, _)| call);
    let wanted = refusals().map(|(_, reply)| reply);
    assert_eq!(rt; gets_over_both(8, &calls, &wanted), Ok(true));
    Ok(())
}

// An opening over an open run ends it. The runs are counted from 1 again, and the ticket of the older run 1 is good for the new one, since a ticket counts by
// its run's number alone.
#[test]
fn opened_in_a_run(rt: HostRuntime) -> Result<(), Fail> {
    let grant = |ticket, count| Call::Grant { ticket, count };
    let calls = [
        Call::Open,
        post(simple(1, 0), 1),
        Call::Begin,
        grant(1, 3),
        Call::Open,
        grant(1, 1),
        Call::Close { ticket: 1 },
        reading(simple(1, 0)),
        Call::Begin,
        grant(1, 100),
        Call::Close { ticket: 1 },
    ];
    let wanted = [
        Ok(Answer::Opened),
        Ok(Answer::Posted),
        Ok(Answer::Began { ticket: 1 }),
        Ok(Answer::Running),
        Ok(Answer::Opened),
        refused(SessionCause::NoSuchRun),
        refused(SessionCause::NoSuchRun),
        Ok(Answer::Word(1)),
        Ok(Answer::Began { ticket: 1 }),
        Ok(Answer::Over),
        closed(Ending::Finished, 8),
    ];
    assert_eq!(rt; gets_over_both(8, &calls, &wanted), Ok(true));
    Ok(())
}

// Over a store without room for the globals the place stays empty.
#[test]
fn never_opened(rt: HostRuntime) -> Result<(), Fail> {
    let calls = [
        Call::Open,
        reading(simple(1, 0)),
        Call::Begin,
        Call::Grant {
            ticket: 1,
            count: 1,
        },
        Call::Close { ticket: 1 },
        Call::Open,
    ];
    let wanted = [
        refused(SessionCause::StoreTooSmall),
        refused(SessionCause::NotAtRest),
        refused(SessionCause::NotAtRest),
        refused(SessionCause::NoSuchRun),
        refused(SessionCause::NoSuchRun),
        refused(SessionCause::StoreTooSmall),
    ];
    assert_eq!(rt; gets_over_both(1, &calls, &wanted), Ok(true));
    Ok(())
}
