// The finite numbers of IEEE 754's binary32.
ghost use Rattle.std.specs.Prelude.{◌≡◌, refl, T};
ghost use Rattle.kinds.specs.Arithmetic.{holds};
ghost use Rattle.kinds.specs.Single as SingleWords;
ghost use Rattle.kinds.specs.SingleLaws;

use crate::fault::ArithmeticFault;
use crate::kind::NumberKind;
use std::num::{f32_from_bits_with_nan, saturating_f32_to_u32};

pub struct Single;

// No number from here on is an index.
const INDEX_LIMIT: u32 = 16777216;

// The number that a word stands for; of an unlawful word an infinity or no number.
fn number(w: u32) -> f32
    ensures { result ≡ SingleWords.number w }
{
    f32_from_bits_with_nan(w)
}

// The exponent's eight bits.
fn exponent(w: u32) -> u32
    ensures { result ≡ SingleWords.exponent w }
{
    w % 0x8000_0000 / 0x80_0000
}

// The word of a result, if it is finite.
fn finite_word(x: f32) -> Result<u32, ArithmeticFault>
    ensures { result ≡ SingleWords.finite_word x }
{
    if x.is_finite() {
        Ok(x.to_bits())
    } else {
        Err(ArithmeticFault::OutOfRange)
    }
}

// The word of a constant of the kind, which binary32 holds exactly.
fn exact_word(n: i32) -> u32
    requires { T (holds SingleWords.single n) }
    ensures { result ≡ SingleWords.constant n }
{
    (n as f32).to_bits()
}

// The number as an index.
fn index_of(x: f32) -> Option<u32>
    ensures { result ≡ SingleWords.whole x }
{
    // Cut to a whole number, 0 for a negative one: the index only if nothing was cut off.
    let n = saturating_f32_to_u32(x);
    if n < INDEX_LIMIT && n as f32 == x {
        Some(n)
    } else {
        None
    }
}

impl NumberKind for Single {
    const SMALLEST: i32 = -16777216;

    const LARGEST: i32 = 16777216;

    ghost SMALLEST = { SingleWords.least };

    ghost LARGEST = { SingleWords.most };

    ghost kind = { SingleWords.single };

    ghost smallest_is = { refl };

    ghost largest_is = { refl };

    ghost laws = { SingleLaws.laws };

    fn is_lawful(w: u32) -> bool {
        exponent(w) != 255
    }

    fn zero() -> u32 {
        0
    }

    fn constant(n: i32) -> Option<u32> {
        if Self::SMALLEST <= n && n <= Self::LARGEST {
            Some(exact_word(n))
        } else {
            None
        }
    }

    fn add(a: u32, b: u32) -> Result<u32, ArithmeticFault> {
        finite_word(number(a) + number(b))
    }

    fn subtract(a: u32, b: u32) -> Result<u32, ArithmeticFault> {
        finite_word(number(a) - number(b))
    }

    fn multiply(a: u32, b: u32) -> Result<u32, ArithmeticFault> {
        finite_word(number(a) * number(b))
    }

    fn divide(a: u32, b: u32) -> Result<u32, ArithmeticFault> {
        let divisor = number(b);
        if divisor == 0.0 {
            return Err(ArithmeticFault::ZeroDivisor);
        }
        finite_word(number(a) / divisor)
    }

    fn equal(a: u32, b: u32) -> bool {
        number(a) == number(b)
    }

    fn less(a: u32, b: u32) -> bool {
        number(a) < number(b)
    }

    fn index(w: u32) -> Option<u32> {
        index_of(number(w))
    }
}
