// Every cause of refusal, in its order, for whole numbers and for singles.
use crate::samples::{SHEETS, Told};
use acceptance::scripts::read_script;
use kinds::{NumberKind, Single, Whole};
use lines::records::Record;
use std::alloc::{AllocError, Global};
use std::test::Fail;
use text::refusals::Refusal;

// What the sheet is refused for, if it is.
fn verdict<K: NumberKind>(text: &str, records: &mut [Record]) -> Told {
    let reading = read_script::<K>(text.as_bytes(), records);
    let Err(refusal) = reading.script() else {
        return None;
    };
    let Refusal { cause, line } = refusal.numbered();
    Some((cause, line))
}

// A branch whose condition is so many negations deep, and is true or false at the bottom.
fn nested(heap: Global, negations: u16) -> Result<String, AllocError> {
    let mut text = String::from_str(heap, "1,g,1,0,0,0\n2,t,0,0,0,0\n")?;
    let mut last = 2u16;
    for _ in 0..negations {
        let next = last.saturating_add(1);
        text.push_str(format!(in heap; "{next},!,{last},0,0,0\n")?.as_str())?;
        last = next;
    }
    for offset in [1u16, 4] {
        let x = last.saturating_add(offset);
        let k = x.saturating_add(1);
        let s = x.saturating_add(2);
        text.push_str(format!(in heap;
            "{x},x,1,0,0,0\n{k},k,1,0,0,0\n{s},s,{x},{k},0,0\n"
        )?.as_str())?;
    }
    let first = last.saturating_add(3);
    let second = last.saturating_add(6);
    let branch = last.saturating_add(7);
    text.push_str(format!(in heap; "{branch},i,{last},{first},{second},0\n")?.as_str())?;
    Ok(text)
}

#[test]
fn sheets_have_their_verdicts(rt: HostRuntime) -> Result<(), Fail> {
    for (text, whole, single) in SHEETS {
        let mut records = [Record::BLANK; 40];
        assert_eq!(rt; verdict::<Whole>(text, &mut records), whole);
        assert_eq!(rt; verdict::<Single>(text, &mut records), single);
    }
    Ok(())
}

#[test]
fn depth_ends_at_64(rt: HostRuntime) -> Result<(), Fail> {
    let mut records = [Record::BLANK; 80];
    let deepest = nested(rt.alloc(), 63)?;
    assert_eq!(rt; verdict::<Whole>(deepest.as_str(), &mut records), None);
    let deeper = nested(rt.alloc(), 64)?;
    assert_eq!(rt;
        verdict::<Whole>(deeper.as_str(), &mut records),
        Some((9, 66))
    );
    Ok(())
}

// How many lines a script has: as an error of a program, its refusal goes through `?`.
fn lines_of_script(text: &str, records: &mut [Record]) -> anyhow::Result<usize> {
    let reading = read_script::<Whole>(text.as_bytes(), records);
    let script = reading.script()?;
    Ok(script.records().len())
}

#[test]
fn a_refusal_is_an_error(rt: HostRuntime) -> Result<(), Fail> {
    let mut records = [Record::BLANK; 5];
    let Err(error) = lines_of_script("1,k,1,0,0,0\n", &mut records) else {
        return Err(Fail::new("the sheet is accepted"));
    };
    let told = format!(in rt.alloc(); "{error}")?;
    assert_eq!(rt;
        told.as_str(),
        "6 at line 1: the lines do not make one script"
    );
    Ok(())
}
