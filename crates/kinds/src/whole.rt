// Whole numbers in two's complement.
ghost use Rattle.std.specs.Prelude.{◌≡◌, ◌≢◌, pos, refl};
ghost use Rattle.std.specs.Option.{option_map, ok_or};
ghost use Rattle.kinds.specs.declared.fault.ArithmeticFault.TheVariants.{OutOfRange};
ghost use Rattle.kinds.specs.Quotients.{rounded};
ghost use Rattle.kinds.specs.Whole as WholeWords;
ghost use Rattle.kinds.specs.WholeLaws;

use crate::fault::ArithmeticFault;
use crate::kind::NumberKind;
use crate::quotients::rounded;

/// Whole numbers from -2,147,483,648 to 2,147,483,647, in two's complement. Every word is lawful.
///
/// Sum, difference and product are exact; the quotient is rounded to the nearest whole number, at a tie to the one
/// further from zero.
pub struct Whole;

// The word of a checked result.
fn checked(n: Option<i32>) -> Result<u32, ArithmeticFault>
    ensures { result ≡ ok_or (option_map WholeWords.word n) OutOfRange }
{
    n.map(i32::cast_unsigned).ok_or(ArithmeticFault::OutOfRange)
}

// The word of a number, if it is one of the kind.
fn fitted(n: i64) -> Result<u32, ArithmeticFault>
    ensures { result ≡ WholeWords.fitting n }
{
    checked(i32::try_from(n).ok())
}

// The rounded quotient of two numbers of the kind, worked in 64 bits. A function of its own, since the search for the
// proof of `divide` runs into its limit where the rounding itself is called.
fn quotient(a: i32, b: i32) -> i64
    requires { b ≢ pos 0 }
    ensures { result ≡ rounded a b }
{
    rounded(i64::from(a), i64::from(b))
}

impl NumberKind for Whole {
    const SMALLEST: i32 = -2147483648;

    const LARGEST: i32 = 2147483647;

    ghost SMALLEST = { WholeWords.least };

    ghost LARGEST = { WholeWords.most };

    ghost kind = { WholeWords.whole };

    ghost smallest_is = { refl };

    ghost largest_is = { refl };

    ghost laws = { WholeLaws.laws };

    fn is_lawful(w: u32) -> bool {
        true
    }

    fn zero() -> u32 {
        0
    }

    fn constant(n: i32) -> Option<u32> {
        Some(n.cast_unsigned())
    }

    fn add(a: u32, b: u32) -> Result<u32, ArithmeticFault> {
        checked(a.cast_signed().checked_add(b.cast_signed()))
    }

    fn subtract(a: u32, b: u32) -> Result<u32, ArithmeticFault> {
        checked(a.cast_signed().checked_sub(b.cast_signed()))
    }

    fn multiply(a: u32, b: u32) -> Result<u32, ArithmeticFault> {
        checked(a.cast_signed().checked_mul(b.cast_signed()))
    }

    fn divide(a: u32, b: u32) -> Result<u32, ArithmeticFault> {
        if b == 0 {
            return Err(ArithmeticFault::ZeroDivisor);
        }
        fitted(quotient(a.cast_signed(), b.cast_signed()))
    }

    fn equal(a: u32, b: u32) -> bool {
        a == b
    }

    fn less(a: u32, b: u32) -> bool {
        a.cast_signed() < b.cast_signed()
    }

    fn index(w: u32) -> Option<u32> {
        if w < 0x8000_0000 { Some(w) } else { None }
    }
}
