// The lines of a text.
ghost use Rattle.std.specs.Prelude.{◌≡◌};
ghost use Rattle.std.specs.Option.{option_map};
ghost use Rattle.std.specs.List.{slice_get};
ghost use Rattle.text.specs.Lines.{line_at, rows, if_closed};

use crate::cutting::cut;

// The closed line of that number, counted from 1, as a part of the text and without its byte 10.
pub fn line_text<'a>(text: &'a [u8], number: usize) -> Option<&'a [u8]>
    ensures { option_map (λ x. x.now) result ≡ line_at text.now number }
{
    line_after(text, number.checked_sub(1)?)
}

// The line after so many others, where it is closed. A loop: `split` would give the end that no byte 10 closes as a line
// too, and the library does not state what `split_inclusive` gives.
fn line_after<'a>(text: &'a [u8], others: usize) -> Option<&'a [u8]>
    ensures { option_map (λ x. x.now) result ≡ if_closed (slice_get (rows text.now) others) }
{
    let mut rest = text;
    for passed in 0..others {
        (_, rest) = cut(rest, b'\n')?;
    }
    let (line, _) = cut(rest, b'\n')?;
    Some(line)
}
