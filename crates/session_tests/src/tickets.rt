// Runs by the single calls, each handed a store: a ticket goes from the begin to the close.
use crate::samples::{DOUBLE, DOUBLE_LINES};
use acceptance::scripts::{Script, ScriptCause, read_script};
use calls::causes::SessionCause;
use faults::{Ending, Fault};
use kinds::Whole;
use lines::records::Record;
use session::runs::{Closing, RunState};
use session::sessions::Session;
use std::test::Fail;
use stores::{Store, WordTable};
use text::refusals::Refusal;

// What a run is granted, and how it is closed.
fn one_run<S: Store>(
    session: &mut Session<Whole>,
    store: &mut S,
    count: u32,
) -> Result<(RunState, Closing), Refusal<SessionCause>> {
    let ticket = session.begin(store)?;
    let granted = session.grant(store, &ticket, count);
    match session.close(store, ticket) {
        Ok(closing) => Ok((granted?, closing)),
        // the run that was begun is the one that is open
        Err(_unclosed) => unreachable!(),
    }
}

// A session of the sheet over one store, and what a run comes to over each of two stores.
fn over_two(
    first: &mut [u32],
    second: &mut [u32],
    count: u32,
) -> Result<[Result<(RunState, Closing), Refusal<SessionCause>>; 2], Refusal<ScriptCause>> {
    let mut records = [Record::BLANK; DOUBLE_LINES];
    let sheet = read_script::<Whole>(DOUBLE.as_bytes(), &mut records);
    Ok(runs_over(&sheet.script()?, first, second, count))
}

fn runs_over(
    script: &Script<Whole>,
    first: &mut [u32],
    second: &mut [u32],
    count: u32,
) -> [Result<(RunState, Closing), Refusal<SessionCause>>; 2] {
    let mut session = Session::unopened();
    let mut own = WordTable::new(first);
    let _opened = session.open(script, &own);
    let over_own = one_run(&mut session, &mut own, count);
    let over_other = one_run(&mut session, &mut WordTable::new(second), count);
    [over_own, over_other]
}

// The other store has no cell for the word of the first call: that is a fault of the run, on the line of the call.
#[test]
fn another_store(rt: HostRuntime) -> Result<(), Fail> {
    let finished = Closing {
        ending: Ending::Finished,
        count: 16,
    };
    let refused = Closing {
        ending: Ending::Fault {
            fault: Fault::Refused,
            line: 24,
        },
        count: 2,
    };
    let mut own = [3, 9, 0, 0, 0, 0, 0, 0];
    let mut other = [3, 9];
    let wanted = [
        Ok((RunState::Over, finished)),
        Ok((RunState::Over, refused)),
    ];
    assert_eq!(rt; over_two(&mut own, &mut other, 100), Ok(wanted));
    assert_eq!(rt; own, [3, 6, 3, 2, 1, 0, 0, 0]);
    assert_eq!(rt; other, [3, 9]);
    Ok(())
}

// Closed with something left to do, and begun again.
#[test]
fn in_mid_run(rt: HostRuntime) -> Result<(), Fail> {
    let stopped = Closing {
        ending: Ending::Stopped,
        count: 5,
    };
    let wanted = [
        Ok((RunState::Running, stopped)),
        Ok((RunState::Running, stopped)),
    ];
    let mut own = [3, 9, 0, 0, 0, 0, 0, 0];
    let mut other = [3, 9, 0, 0, 0, 0, 0, 0];
    assert_eq!(rt; over_two(&mut own, &mut other, 5), Ok(wanted));
    Ok(())
}
