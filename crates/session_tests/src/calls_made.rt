// What calls answer, at rest and where no session is, over the store of the opening and over another one.
use crate::samples::{INFINITE, LINES, SHEET, bytes_of, element, post, reading, refused, simple};
use acceptance::scripts::{Script, ScriptCause, read_script};
use calls::asked::{Answer, Call};
use calls::causes::SessionCause;
use kinds::{NumberKind, Single, Whole};
use lines::records::Record;
use session::playing::{Reply, play};
use session::sessions::Session;
use std::test::Fail;
use stores::{ByteImage, Store, WordTable};
use text::refusals::Refusal;

// Calls in order over the words 10, 20, 30, 40, and what they answer: the last two by whether the last post is accepted, as its word is lawful for
// whole numbers and not for singles.
fn table(posted: Reply, last: u32) -> [(Call, Reply); MANY] {
    [
        (Call::Open, Ok(Answer::Opened)),
        (reading(simple(1, 0)), Ok(Answer::Word(10))),
        (reading(element(2, 2)), Ok(Answer::Word(40))),
        (post(element(2, 0), 5), Ok(Answer::Posted)),
        (reading(element(2, 0)), Ok(Answer::Word(5))),
        (reading(element(2, 1)), Ok(Answer::Word(30))),
        (post(element(2, 0), 6), Ok(Answer::Posted)),
        (reading(element(2, 0)), Ok(Answer::Word(6))),
        (reading(element(2, 3)), refused(SessionCause::NoSuchGlobal)),
        (reading(simple(1, 1)), refused(SessionCause::NoSuchGlobal)),
        (reading(simple(2, 0)), refused(SessionCause::NoSuchGlobal)),
        (post(element(1, 0), 5), refused(SessionCause::NoSuchGlobal)),
        // no such index, and the word unlawful
        (
            post(element(2, 3), INFINITE),
            refused(SessionCause::NoSuchGlobal),
        ),
        (post(simple(1, 0), INFINITE), posted),
        (reading(simple(1, 0)), Ok(Answer::Word(last))),
    ]
}

const MANY: usize = 15;

const WORDS: [u32; 4] = [10, 20, 30, 40];

// Makes the calls of the table over a store and tells whether each got its answer.
fn plays<K: NumberKind, S: Store>(
    store: &mut S,
    table: [(Call, Reply); MANY],
) -> Result<bool, Refusal<ScriptCause>> {
    let mut records = [Record::BLANK; LINES];
    let sheet = read_script::<K>(SHEET.as_bytes(), &mut records);
    let script = sheet.script()?;
    let mut answers = [Ok(Answer::Posted); MANY];
    let calls = table.map(|(call, _)| call);
    let made = play(&script, store, &calls, &mut answers);
    Ok(made == MANY && answers == table.map(|(_, answer)| answer))
}

// The calls over both stores, and what the first cell then holds.
fn plays_over_both<K: NumberKind>(
    table: [(Call, Reply); MANY],
    first: u32,
) -> Result<bool, Refusal<ScriptCause>> {
    let mut cells = WORDS;
    let over_table = plays::<K, _>(&mut WordTable::new(&mut cells), table)?;
    let mut bytes = bytes_of(&WORDS);
    let over_image = plays::<K, _>(&mut ByteImage::new(&mut bytes), table)?;
    let left = [first, 6, 30, 40];
    Ok(over_table && over_image && cells == left && bytes == bytes_of(&left))
}

#[test]
fn calls_over_both_stores(rt: HostRuntime) -> Result<(), Fail> {
    let whole = table(Ok(Answer::Posted), INFINITE);
    let single = table(refused(SessionCause::UnlawfulWord), 10);
    assert_eq!(rt; plays_over_both::<Whole>(whole, INFINITE), Ok(true));
    assert_eq!(rt; plays_over_both::<Single>(single, 10), Ok(true));
    Ok(())
}

// An opened session over other stores than its own, and one that is not opened.
fn over_another<K: NumberKind, S: Store>(
    store: &mut S,
) -> Result<[Reply; 5], Refusal<ScriptCause>> {
    let mut records = [Record::BLANK; LINES];
    let sheet = read_script::<K>(SHEET.as_bytes(), &mut records);
    Ok(answers_over(&sheet.script()?, store))
}

fn answers_over<K: NumberKind, S: Store>(script: &Script<K>, store: &mut S) -> [Reply; 5] {
    let mut session = Session::unopened();
    let unopened = session.post(store, simple(9, 9), INFINITE);
    let mut words = WORDS;
    let opened = session.open(script, &WordTable::new(&mut words));
    [
        unopened.map(|_| Answer::Posted),
        opened.map(|_| Answer::Opened),
        session
            .post(store, element(2, 2), 5)
            .map(|_| Answer::Posted),
        // the word may be unlawful too
        session
            .post(store, element(2, 2), INFINITE)
            .map(|_| Answer::Posted),
        session.reading(store, simple(1, 0)).map(Answer::Word),
    ]
}

#[test]
fn calls_over_another_store(rt: HostRuntime) -> Result<(), Fail> {
    let not_at_rest = refused(SessionCause::NotAtRest);
    let fails = refused(SessionCause::StoreFails);
    let unlawful = refused(SessionCause::UnlawfulWord);
    let opened = Ok(Answer::Opened);
    let whole = [
        not_at_rest,
        opened,
        fails,
        fails,
        Ok(Answer::Word(INFINITE)),
    ];
    let single = [not_at_rest, opened, fails, unlawful, fails];
    // of three cells, the first unlawful for singles
    let mut cells = [INFINITE, 20, 30];
    let mut table = WordTable::new(&mut cells);
    assert_eq!(rt; over_another::<Whole, _>(&mut table), Ok(whole));
    assert_eq!(rt; over_another::<Single, _>(&mut table), Ok(single));
    let mut bytes = bytes_of(&[INFINITE, 20, 30]);
    let mut image = ByteImage::new(&mut bytes[..12]);
    assert_eq!(rt; over_another::<Whole, _>(&mut image), Ok(whole));
    assert_eq!(rt; over_another::<Single, _>(&mut image), Ok(single));
    assert_eq!(rt; bytes, bytes_of(&[INFINITE, 20, 30]));
    Ok(())
}
