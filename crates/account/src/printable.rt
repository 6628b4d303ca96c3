// As much of a text as can be printed.
ghost use Rattle.std.specs.Prelude.{◌≡◌, ◌≤◌, length};
ghost use Rattle.std.specs.List.{prefix_len};
ghost use Rattle.account.specs.Printable.{is_printable, printable_front};

fn is_printable(byte: u8) -> bool
    ensures { result ≡ is_printable byte }
{
    matches!(byte, b' '..=b'~')
}

fn printable_count(text: &[u8]) -> usize
    ensures value { result ≡ prefix_len is_printable text.now }
    ensures bound { result ≤ length text.now }
{
    text.iter().take_while(|b| is_printable(**b)).count()
}

// The text up to its first byte that is not printable.
pub fn printable_part<'a>(text: &'a [u8]) -> &'a [u8]
    ensures { result.now ≡ printable_front text.now }
{
    &text[..printable_count(text)]
}
