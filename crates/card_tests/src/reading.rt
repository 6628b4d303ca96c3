// Reading: whole sheets, and every refusal of text and lines.
use crate::samples::{DAMAGED, DOUBLE, WHOLE};
use lines::records::{Line, Record};
use sheet::reader::read_lines;
use std::alloc::{AllocError, Global};
use std::test::Fail;

// How many lines were read; or the number and the line of the refusal.
fn outcome(text: &[u8], records: &mut [Record]) -> Result<usize, (u8, usize)> {
    read_lines(text, records).map_err(|refusal| (refusal.cause.into(), refusal.line))
}

// A sheet of that many lines, each `N,t,0,0,0,0`.
fn long_sheet(heap: Global, count: u16) -> Result<String, AllocError> {
    let mut text = String::new(heap);
    for n in 1..=count {
        let line = format!(in heap; "{n},t,0,0,0,0\n")?;
        text.push_str(line.as_str())?;
    }
    Ok(text)
}

#[test]
fn double_sheet_is_read_whole(rt: HostRuntime) {
    let mut records = [Record::BLANK; 25];
    assert_eq!(rt; outcome(DOUBLE, &mut records), Ok(25));
    let last = Line::System {
        declarations: 21,
        body: 24,
    };
    assert_eq!(rt; records[24].line, last);
    let mut fewer = [Record::BLANK; 24];
    assert_eq!(rt; outcome(DOUBLE, &mut fewer), Err((5, 25)));
}

#[test]
fn damaged_sheets_are_refused(rt: HostRuntime) {
    for (text, number, line) in DAMAGED {
        let mut records = [Record::BLANK; 4];
        assert_eq!(rt; outcome(text.as_bytes(), &mut records), Err((number, line)));
    }
}

#[test]
fn ends_of_ranges_are_read(rt: HostRuntime) {
    for (text, lines) in WHOLE {
        let mut records = [Record::BLANK; 4];
        assert_eq!(rt; outcome(text.as_bytes(), &mut records), Ok(lines));
    }
}

#[test]
fn lines_and_bytes_have_their_limits(rt: HostRuntime) -> Result<(), Fail> {
    let mut records = vec![in rt.alloc(); Record::BLANK; 3000]?;
    let most = long_sheet(rt.alloc(), 2048)?;
    assert_eq!(rt; outcome(most.as_bytes(), &mut records), Ok(2048));
    let more = long_sheet(rt.alloc(), 2049)?;
    assert_eq!(rt; outcome(more.as_bytes(), &mut records), Err((5, 2049)));
    let bytes = vec![in rt.alloc(); b'1'; 65537]?;
    assert_eq!(rt; outcome(&bytes, &mut records), Err((1, 0)));
    assert_eq!(rt; outcome(&bytes[0..65536], &mut records), Err((2, 1)));
    Ok(())
}

#[test]
fn refusals_are_told(rt: HostRuntime) -> Result<(), Fail> {
    let mut records = [Record::BLANK; 4];
    let Err(refusal) = read_lines(b"1,t,0,0,0,0\n2,w,0,0,0,0\n", &mut records) else {
        return Err(Fail::new("the second kind is unknown"));
    };
    let told = format!(in rt.alloc(); "{refusal}")?;
    assert_eq!(rt;
        told.as_str(),
        "4 at line 2: the kind is not one known character"
    );
    Ok(())
}
