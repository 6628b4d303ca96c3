// The refusal that no list of calls comes to in a test's time: 19, after 4,294,967,295 runs.
use crate::sessions::Session;
use crate::tickets::Ticket;
use acceptance::scripts::{Script, read_script};
use calls::causes::SessionCause;
use kinds::Whole;
use lines::records::Record;
use std::test::Fail;
use stores::{Store, WordTable};
use text::refusals::Refusal;

// Global 1 becomes 0.
const SHEET: &str = "1,g,1,0,0,0\n2,x,1,0,0,0\n3,k,0,0,0,0\n4,s,2,3,0,0\n";

// The number of a run that is begun, its ticket spent at once.
fn number_begun<S: Store>(
    session: &mut Session<Whole>,
    store: &S,
) -> Result<u32, Refusal<SessionCause>> {
    let Ticket { run } = session.begin(store)?;
    Ok(run)
}

// The numbers of the runs that a session begins one after the other, where so many were begun before.
fn begun_after<S: Store>(
    script: &Script<Whole>,
    store: &S,
    before: u32,
) -> [Result<u32, Refusal<SessionCause>>; 3] {
    let mut session = Session::unopened();
    let _opened = session.open(script, store);
    if let Some(opened) = &mut session.opened {
        opened.runs = before;
    }
    let last = number_begun(&mut session, store);
    let _closed = session.close_run(u32::MAX);
    [
        last,
        number_begun(&mut session, store),
        number_begun(&mut session, store),
    ]
}

#[test]
fn after_the_last_run(rt: HostRuntime) -> Result<(), Fail> {
    let mut records = [Record::BLANK; 4];
    let sheet = read_script::<Whole>(SHEET.as_bytes(), &mut records);
    let Ok(script) = sheet.script() else {
        return Err(Fail::new("the sheet is refused"));
    };
    let mut words = [7];
    let none_left = Err(Refusal::without_line(SessionCause::NoRunLeft));
    let wanted = [Ok(4_294_967_295), none_left, none_left];
    assert_eq!(rt;
        begun_after(&script, &WordTable::new(&mut words), u32::MAX - 1),
        wanted
    );
    Ok(())
}
