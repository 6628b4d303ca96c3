// Runs of small scripts.
use acceptance::scripts::read_script;
use engine::{Engine, Progress, State};
use faults::Fault;
use kinds::{NumberKind, Single, Whole};
use lines::records::{LineNumber, Record};
use std::test::Fail;
use stores::WordTable;

// An assignment to a global.
const ASSIGNMENT: &str = "1,g,1,0,0,0\n2,x,1,0,0,0\n3,k,5,0,0,0\n4,s,2,3,0,0\n";

// A global that is assigned its own word.
const COPY: &str = "1,g,1,0,0,0\n2,x,1,0,0,0\n3,x,1,0,0,0\n4,s,2,3,0,0\n";

// The largest whole number and 1; a division by zero; element 3 of three.
const SUM: &str =
    "1,g,1,0,0,0\n2,x,1,0,0,0\n3,k,2147483647,0,0,0\n4,k,1,0,0,0\n5,+,3,4,0,0\n6,s,2,5,0,0\n";

const QUOTIENT: &str =
    "1,g,1,0,0,0\n2,x,1,0,0,0\n3,k,1,0,0,0\n4,k,0,0,0,0\n5,/,3,4,0,0\n6,s,2,5,0,0\n";

const ELEMENT: &str = "1,g,1,3,0,0\n2,k,3,0,0,0\n3,a,1,2,0,0\n4,k,1,0,0,0\n5,s,3,4,0,0\n";

// A procedure that calls itself without end.
const CALLS: &str =
    "1,g,1,0,0,0\n2,x,3,0,0,0\n3,x,4,0,0,0\n4,p,2,2,3,0\n5,d,2,3,4,4\n6,x,1,0,0,0\n7,x,1,0,0,0\n8,p,2,6,7,0\n9,e,5,8,0,0\n";

fn faulted(begun: u32, fault: Fault, line: LineNumber) -> Progress {
    Progress {
        begun,
        state: State::Faulted { fault, line },
    }
}

// The script's run over a store of some cells, with one cell for its globals unless it is told otherwise.
fn play<K: NumberKind>(
    sheet: &str,
    used: u32,
    size: u32,
    cells: &mut [u32],
    allowances: [u32; 2],
) -> Option<(Progress, Progress)> {
    let mut records = [Record::BLANK; 20];
    let reading = read_script::<K>(sheet.as_bytes(), &mut records);
    let Ok(script) = reading.script() else {
        return None;
    };
    let mut store = WordTable::new(cells);
    let mut engine = Engine::at_rest();
    engine.start(script.records().len() as LineNumber, used);
    let [first, second] = allowances;
    let first = engine.run(&script, &mut store, size, first);
    let second = engine.run(&script, &mut store, size, second);
    Some((first, second))
}

#[test]
fn a_run_goes_on_where_it_stopped(rt: HostRuntime) -> Result<(), Fail> {
    let mut cells = [0; 10];
    let Some(progress) = play::<Whole>(ASSIGNMENT, 1, 10, &mut cells, [0, 9]) else {
        return Err(Fail::new("the sheet is refused"));
    };
    let stopped = Progress {
        begun: 0,
        state: State::Running,
    };
    let finished = Progress {
        begun: 1,
        state: State::Finished,
    };
    assert_eq!(rt; progress, (stopped, finished));
    assert_eq!(rt; cells[0], 5);
    Ok(())
}

#[test]
fn faults(rt: HostRuntime) -> Result<(), Fail> {
    let nothing = Progress {
        begun: 0,
        state: State::Finished,
    };
    for (sheet, used, size, fault) in [
        (SUM, 1, 10, faulted(1, Fault::OutOfRange, 6)),
        (QUOTIENT, 1, 10, faulted(1, Fault::ZeroDivisor, 6)),
        (ELEMENT, 3, 10, faulted(1, Fault::NoElement, 5)),
        // one statement for the system, and then the calls
        (CALLS, 1, 10, faulted(11, Fault::NoCells, 4)),
        (CALLS, 1, 1024, faulted(513, Fault::TooDeep, 4)),
    ] {
        let mut cells = [0; 1024];
        let Some(progress) = play::<Whole>(sheet, used, size, &mut cells, [1000, 1000]) else {
            return Err(Fail::new("the sheet is refused"));
        };
        assert_eq!(rt; progress, (fault, nothing));
    }
    Ok(())
}

#[test]
fn another_store(rt: HostRuntime) -> Result<(), Fail> {
    // of fewer cells: four calls find theirs
    let mut few = [0; 5];
    let Some((progress, _)) = play::<Whole>(CALLS, 1, 10, &mut few, [1000, 0]) else {
        return Err(Fail::new("the sheet is refused"));
    };
    assert_eq!(rt; progress, faulted(6, Fault::Refused, 4));
    // with a word that is no single's
    let mut words = [2143289344];
    let Some((progress, _)) = play::<Single>(COPY, 1, 1, &mut words, [1, 0]) else {
        return Err(Fail::new("the sheet is refused"));
    };
    assert_eq!(rt; progress, faulted(1, Fault::Refused, 4));
    assert_eq!(rt; words[0], 2143289344);
    Ok(())
}
