// Lines that are written for a reader: a letter and three numbers, as `f,0,0,4`.
ghost use Rattle.std.specs.Prelude.{◌≡◌, ℕ, ◌+◌, ◌≤◌, ◌∷◌, length, Some, if◌then◌else◌, Ok, Err, decimal, nat_le};
ghost use Rattle.text.specs.Refusals.{without_line};
ghost use Rattle.text.specs.Written.{spelling, printed, placed, number_of, meaning_of};
ghost use Rattle.text.specs.declared.written.WriteCause.TheVariants.{BufferTooShort};

use crate::refusals::Refusal;
use itoa::write_digits;
use std::error::Error;
use std::fmt;

// Why a line is not written.
#[derive(Clone, Copy, PartialEq, Eq, Debug)]
pub enum WriteCause {
    BufferTooShort = 20,
}

// The number of a refusal for that cause.
impl From<WriteCause> for u8 {
    ghost from_gives = { λ cause n. n ≡ number_of cause };

    fn from(cause: WriteCause) -> u8 {
        cause as u8
    }
}

// What it means, in plain words.
impl fmt::Display for WriteCause {
    // by hand: the text is promised, which a derive does not state
    ghost output = { λ cause. Some (meaning_of cause) };

    fn fmt<W: fmt::Write>(&self, f: &mut fmt::Formatter<W>) -> fmt::Result {
        f.write_str(match self {
            WriteCause::BufferTooShort => "the buffer is too short for the line",
        })
    }
}

impl Error for WriteCause {}

#[derive(Clone, Copy, PartialEq, Eq, Debug)]
pub struct WrittenLine {
    pub letter: u8,
    pub first: u32,
    pub second: u32,
    pub third: u32,
}

impl WrittenLine {
    // How many bytes the line takes, its byte 10 too.
    fn len(&self) -> usize
        ensures { result ≡ length (spelling self.now) }
    {
        5 + digit_count(self.first) + digit_count(self.second) + digit_count(self.third)
    }

    // Writes the line at the front of the buffer and gives its length; a buffer that is too short stays as it is.
    pub fn write(&self, buffer: &mut [u8]) -> Result<usize, Refusal<WriteCause>>
        ensures answer { result ≡ (if nat_le (length (spelling self.now)) (length buffer.old) then Ok (length (spelling self.now)) else Err (without_line BufferTooShort)) }
        ensures left { buffer.new ≡ (if nat_le (length (spelling self.now)) (length buffer.old) then placed 0 (spelling self.now) buffer.old else buffer.old) }
    {
        let length = self.len();
        if buffer.len() < length {
            return Err(Refusal::without_line(WriteCause::BufferTooShort));
        }
        self.put(buffer);
        Ok(length)
    }

    // Puts each byte of the line once, straight into its place: a line made apart and copied takes several times as long where the
    // numbers are short.
    fn put(&self, buffer: &mut [u8])
        requires { length (spelling self.now) ≤ length buffer.old }
        ensures { buffer.new ≡ placed 0 (spelling self.now) buffer.old }
    {
        buffer[0] = self.letter;
        let at = put_field(buffer, 1, self.first);
        let at = put_field(buffer, at, self.second);
        let at = put_field(buffer, at, self.third);
        buffer[at] = b'\n';
    }
}

// How many digits a number has, counted four at a time: a number below 10000 needs no division.
fn digit_count(n: u32) -> usize
    ensures value { result ≡ length (decimal n) }
    ensures bound { result ≤ 10 }
{
    if n < 10 {
        1
    } else if n < 100 {
        2
    } else if n < 1000 {
        3
    } else if n < 10000 {
        4
    } else {
        digit_count(n / 10000) + 4
    }
}

// Puts a comma and the digits of a number from `at` on, and gives the place after them.
fn put_field(buffer: &mut [u8], at: usize, n: u32) -> usize
    requires { at + (1 + length (decimal n)) ≤ length buffer.old }
    ensures end { result ≡ at + (1 + length (decimal n)) }
    ensures left { buffer.new ≡ placed at (44 ∷ decimal n) buffer.old }
{
    buffer[at] = b',';
    let end = at + 1 + digit_count(n);
    write_digits(n as u64, buffer, end);
    end
}

// The line as a text, where its letter is one of ASCII.
impl fmt::Display for WrittenLine {
    ghost output = { printed };

    fn fmt<W: fmt::Write>(&self, f: &mut fmt::Formatter<W>) -> fmt::Result {
        let letter = self.letter as char;
        writeln!(f, "{letter},{},{},{}", self.first, self.second, self.third)
    }
}
