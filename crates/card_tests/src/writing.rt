// Written lines, and the text of a line.
use std::test::Fail;
use text::lines::line_text;
use text::refusals::Refusal;
use text::written::WrittenLine;

#[test]
fn lines_are_written_at_the_front(rt: HostRuntime) {
    let line = WrittenLine {
        letter: b'x',
        first: 4294967295,
        second: 0,
        third: 10,
    };
    let mut buffer = [b'.'; 20];
    assert_eq!(rt; line.write(&mut buffer), Ok(18));
    assert_eq!(rt; buffer, *b"x,4294967295,0,10\n..");
}

#[test]
fn short_buffers_stay_as_they_are(rt: HostRuntime) -> Result<(), Fail> {
    let line = WrittenLine {
        letter: b'f',
        first: 0,
        second: 0,
        third: 4,
    };
    let mut short = [b'.'; 7];
    let Err(refusal) = line.write(&mut short) else {
        return Err(Fail::new("too short for the line"));
    };
    let Refusal { cause, line: at } = refusal.numbered();
    assert_eq!(rt; (cause, at), (20, 0));
    assert_eq!(rt; short, [b'.'; 7]);
    let mut just = [b'.'; 8];
    assert_eq!(rt; line.write(&mut just), Ok(8));
    assert_eq!(rt; just, *b"f,0,0,4\n");
    Ok(())
}

#[test]
fn lines_print_as_they_are_written(rt: HostRuntime) -> Result<(), Fail> {
    let line = WrittenLine {
        letter: b'x',
        first: 4294967295,
        second: 0,
        third: 10,
    };
    let printed = format!(in rt.alloc(); "{line}")?;
    assert_eq!(rt; printed.as_str(), "x,4294967295,0,10\n");
    Ok(())
}

#[test]
fn lines_are_handed_out_by_number(rt: HostRuntime) -> Result<(), Fail> {
    let text = b"one\n\nthree\nfour";
    assert!(rt; line_text(text, 0).is_none());
    assert_eq!(rt; line_text(text, 1).ok_or("line 1")?.len(), 3);
    assert_eq!(rt; line_text(text, 2).ok_or("line 2")?.len(), 0);
    assert_eq!(rt; line_text(text, 3).ok_or("line 3")?[0], b't');
    assert!(rt; line_text(text, 4).is_none());
    Ok(())
}
