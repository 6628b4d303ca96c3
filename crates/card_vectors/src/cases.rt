// Cases as the file spells them.
ghost use Rattle.std.specs.Prelude.{◌≡◌, ℕ, ◌<◌, List, ◌++◌, length, IfSome};
ghost use Rattle.std.specs.Iterator.{at_most};
ghost use Rattle.card_vectors.specs.Layout.{HasCase, HasHead};

use std::str::from_utf8;
use text::cutting::cut;

// A sheet, and the lines that should be written of it.
#[derive(Clone, Copy, PartialEq, Eq, Debug)]
pub struct Case<'a> {
    pub sheet: &'a [u8],
    pub want: &'a [u8],
}

// The number after a word, as in `sheet 25`.
fn count_after(line: &[u8], word: &str) -> Option<u16>
    ensures { IfSome result (λ _. (number : List ℕ) × (line.now ≡ word.now ++ number)) }
{
    let number = from_utf8(line).ok()?.strip_prefix(word)?;
    number.parse().ok()
}

// The cases of a text, one after the other, and the text that is left.
#[derive(Drop)]
pub struct Cases<'a> {
    pub rest: &'a [u8],
}

impl<'a> Iterator for Cases<'a> {
    type Item = Case<'a>;

    ghost remaining = { λ cases. at_most (length cases.rest.now) };

    fn next(&mut self) -> Option<Case<'a>> {
        let (case, rest) = next_case(self.rest)?;
        self.rest = rest;
        Some(case)
    }
}

// The next case, and the text after it; nothing where the text has no more.
pub(crate) fn next_case<'a>(text: &'a [u8]) -> Option<(Case<'a>, &'a [u8])>
    ensures whole { IfSome result (λ p. HasCase text.now p.0.sheet.now p.0.want.now p.1.now) }
    ensures shorter { IfSome result (λ p. length p.1.now < length text.now) }
{
    let (sheet, rest) = take_lines(text, "sheet ")?;
    let (want, rest) = take_lines(rest, "want ")?;
    Some((Case { sheet, want }, rest))
}

// The lines after a head with their number, as `sheet 25`, and the text after them.
fn take_lines<'a>(text: &'a [u8], word: &str) -> Option<(&'a [u8], &'a [u8])>
    ensures whole { IfSome result (λ p. HasHead word.now text.now (p.0.now ++ p.1.now)) }
    ensures shorter { IfSome result (λ p. length p.1.now < length text.now) }
{
    let (head, lines) = cut(text, b'\n')?;
    let count = count_after(head, word)?;
    let mut rest = lines;
    for _ in 0..count {
        (_, rest) = cut(rest, b'\n')?;
    }
    Some((&lines[..lines.len() - rest.len()], rest))
}
