// Cases as the file spells them.
ghost use Rattle.std.specs.Prelude.{◌≡◌, ◌++◌, IfSome};
ghost use Rattle.call_vectors.specs.Layout.{LaidOut};

use std::alloc::Global;

// A list of calls to a session of a sheet over a store.
#[derive(Clone, Copy, PartialEq, Eq, Debug)]
pub struct Case<'a> {
    pub kind: &'a str,
    pub cells: u16,
    pub sheet: &'a str,
    // the first words of the store
    pub store: &'a str,
    // a line for each call and what it should get
    pub calls: &'a str,
}

// What follows a word that begins a text.
fn after<'a>(text: &'a str, word: &str) -> Option<&'a str>
    ensures { IfSome result (λ rest. text.now ≡ word.now ++ rest.now) }
{
    text.strip_prefix(word)
}

// What stands before and after the first place of a word in a text.
fn around<'a>(text: &'a str, word: &str) -> Option<(&'a str, &'a str)>
    ensures { IfSome result (λ p. text.now ≡ p.0.now ++ (word.now ++ p.1.now)) }
{
    text.split_once(word)
}

// The list of a part of the text, from its head to the line before its end.
pub(crate) fn case_of<'a>(text: &'a str) -> Option<Case<'a>>
    ensures { IfSome result (λ c. LaidOut text.now c.kind.now c.sheet.now c.store.now c.calls.now) }
{
    let rest = after(text, "case ")?;
    let (kind, rest) = around(rest, " ")?;
    let (cells, rest) = around(rest, "\n")?;
    let (_, rest) = around(rest, "\n")?;
    let (sheet, rest) = around(rest, "store")?;
    let (store, calls) = around(rest, "\n")?;
    Some(Case {
        kind,
        cells: cells.parse().ok()?,
        sheet,
        store,
        calls,
    })
}

impl<'a> Case<'a> {
    // The words of the store.
    pub(crate) fn words(&self, heap: Global) -> anyhow::Result<Vec<u32>> {
        let mut words = Vec::new(heap);
        for word in self.store.split_whitespace() {
            words.push(word.parse()?)?;
        }
        words.resize(self.cells as usize, 0)?;
        Ok(words)
    }

    // The same as the bytes of an image.
    pub(crate) fn bytes(&self, heap: Global) -> anyhow::Result<Vec<u8>> {
        let words = self.words(heap)?;
        let mut bytes = Vec::new(heap);
        for word in &words {
            bytes.extend_from_slice(&word.to_le_bytes())?;
        }
        Ok(bytes)
    }
}
