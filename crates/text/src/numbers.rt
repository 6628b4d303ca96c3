// Numbers, as a field of a sheet spells them.
ghost use Rattle.std.specs.Prelude.{◌≡◌, ℕ, ◌≤◌};
ghost use Rattle.text.specs.Spelling.{SaysNumber, SaysInteger, number, integer};

use std::str;

// The number of at most `most` that the field spells.
pub fn read_number(field: &[u8], most: u64) -> Option<u64>
    ensures spelled { SaysNumber most field.now result }
    ensures value { result ≡ number most field.now }
{
    let [first, rest @ ..] = field else {
        return None;
    };
    // The library's `parse` takes a plus and leading zeros, which no spelling has.
    if *first == b'+' {
        return None;
    }
    if *first == b'0' && !rest.is_empty() {
        return None;
    }
    let text = str::from_utf8(field).ok()?;
    let n = text.parse::<u64>().ok()?;
    if n <= most { Some(n) } else { None }
}

// The integer of 32 bits that the field spells.
pub fn read_integer(field: &[u8]) -> Option<i32>
    ensures spelled { SaysInteger field.now result }
    ensures value { result ≡ integer field.now }
{
    if let [b'-', digits @ ..] = field {
        let n = read_number(digits, 2147483648)?.checked_sub(1)?;
        return Some(-1 - n as i32);
    }
    Some(read_number(field, 2147483647)? as i32)
}
