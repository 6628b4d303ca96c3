// Cutting a text in two at a byte.
ghost use Rattle.std.specs.Prelude.{◌≡◌, MatchOption};
ghost use Rattle.text.specs.Cutting.{Absent, CutAt};

// What stands before the first `byte` of `text`, and what stands after it.
pub fn cut<'a>(text: &'a [u8], byte: u8) -> Option<(&'a [u8], &'a [u8])>
    ensures { MatchOption result (Absent byte text.now) (λ p. CutAt byte text.now p.0.now p.1.now) }
{
    let at = text.iter().position(|b| *b == byte)?;
    Some((&text[..at], &text[at + 1..]))
}
