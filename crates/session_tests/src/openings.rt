// What an opening answers, and what the place then holds.
use crate::samples::{INFINITE, LINES, MOST_WORDS, SHEET, Told, bytes_of};
use acceptance::globals::GlobalSort;
use acceptance::scripts::{Script, ScriptCause, read_script};
use calls::asked::GlobalCell;
use kinds::{NumberKind, Single, Whole};
use lines::records::Record;
use session::sessions::Session;
use std::test::Fail;
use stores::{ByteImage, Store, WordTable};
use text::refusals::Refusal;

// The words of a store, and what the opening over it is refused for with whole numbers and with singles.
const OPENINGS: [(&[u32], Told, Told); 8] = [
    (&[1, 2, 3, 4], None, None),
    // past the globals any word will do
    (&[1, 2, 3, 4, INFINITE], None, None),
    (&[1, 2, 3], Some((11, 0)), Some((11, 0))),
    (&[], Some((11, 0)), Some((11, 0))),
    // too small, and a word unlawful
    (&[INFINITE, 2, 3], Some((11, 0)), Some((11, 0))),
    (&[INFINITE, 2, 3, 4], None, Some((12, 1))),
    (&[1, 2, 3, INFINITE], None, Some((12, 2))),
    // two lines with an unlawful word
    (&[INFINITE, INFINITE, 3, 4], None, Some((12, 1))),
];

const FIRST: GlobalCell = GlobalCell {
    sort: GlobalSort::Simple,
    name: 1,
    index: 0,
};

fn told<C: Into<u8>>(answer: Result<(), Refusal<C>>) -> Told {
    let Refusal { cause, line } = answer.err()?.numbered();
    Some((cause, line))
}

// Opens the sheet over the store, in a place that held a session over another one, and tells the refusal of the opening and that of a
// reading after it.
fn open_again<K: NumberKind, S: Store>(store: &S) -> Result<(Told, Told), Refusal<ScriptCause>> {
    let mut records = [Record::BLANK; LINES];
    let sheet = read_script::<K>(SHEET.as_bytes(), &mut records);
    Ok(told_again(&sheet.script()?, store))
}

fn told_again<K: NumberKind, S: Store>(script: &Script<K>, store: &S) -> (Told, Told) {
    let mut session = Session::unopened();
    let mut words = [7; 4];
    let before = told(session.open(script, &WordTable::new(&mut words)));
    let answer = told(session.open(script, store));
    let reading = told(session.reading(store, FIRST).map(|_| ()));
    (before.or(answer), reading)
}

// What is due: where the opening is refused, there is no session to read from.
fn due(refusal: Told) -> Result<(Told, Told), Refusal<ScriptCause>> {
    Ok((refusal, refusal.map(|_| (13, 0))))
}

#[test]
fn openings_over_tables(rt: HostRuntime) -> Result<(), Fail> {
    for (words, whole, single) in OPENINGS {
        let mut cells = [0; MOST_WORDS];
        cells[..words.len()].copy_from_slice(words);
        let store = WordTable::new(&mut cells[..words.len()]);
        assert_eq!(rt; open_again::<Whole, _>(&store), due(whole));
        assert_eq!(rt; open_again::<Single, _>(&store), due(single));
    }
    Ok(())
}

#[test]
fn openings_over_images(rt: HostRuntime) -> Result<(), Fail> {
    for (words, whole, single) in OPENINGS {
        let mut bytes = bytes_of(words);
        let store = ByteImage::new(&mut bytes[..4 * words.len()]);
        assert_eq!(rt; open_again::<Whole, _>(&store), due(whole));
        assert_eq!(rt; open_again::<Single, _>(&store), due(single));
    }
    Ok(())
}
