// What a number kind is: which words it takes, and what it does with them.
ghost use Rattle.std.specs.Prelude.{◌≡◌, ℤ};
ghost use Rattle.kinds.specs.Arithmetic.{Arithmetic, Laws, constant_word};

use crate::fault::ArithmeticFault;

/// A kind is a type with no value: its functions are called by its name, as `K::add(a, b)`. They take any words and
/// ask nothing of the caller. For lawful words `kind` says what they give and `laws` what holds of it; for others,
/// the laws promise nothing.
pub trait NumberKind {
    /// The smallest whole number that the kind holds as a constant.
    const SMALLEST: i32;

    /// The largest one.
    const LARGEST: i32;

    // The same two in clauses. By the laws below they are the ends that the kind's meaning has.
    ghost SMALLEST: { ℤ };

    ghost LARGEST: { ℤ };

    ghost kind: { Arithmetic };

    /// Whether the word stands for a number of the kind.
    fn is_lawful(w: u32) -> bool
        ensures { result ≡ kind.lawful w };

    /// The word that a new cell holds.
    fn zero() -> u32
        ensures { result ≡ kind.zero };

    /// The word of a constant; `None` exactly outside `SMALLEST` to `LARGEST`.
    fn constant(n: i32) -> Option<u32>
        ensures { result ≡ constant_word kind n };

    /// The word of the sum, or `OutOfRange` where the kind has none.
    fn add(a: u32, b: u32) -> Result<u32, ArithmeticFault>
        ensures { result ≡ kind.sum a b };

    /// The word of the difference, or `OutOfRange` where the kind has none.
    fn subtract(a: u32, b: u32) -> Result<u32, ArithmeticFault>
        ensures { result ≡ kind.difference a b };

    /// The word of the product, or `OutOfRange` where the kind has none.
    fn multiply(a: u32, b: u32) -> Result<u32, ArithmeticFault>
        ensures { result ≡ kind.product a b };

    /// The word of the quotient, or why there is none.
    fn divide(a: u32, b: u32) -> Result<u32, ArithmeticFault>
        ensures { result ≡ kind.quotient a b };

    /// Whether the two words stand for the same number.
    fn equal(a: u32, b: u32) -> bool
        ensures { result ≡ kind.equal a b };

    /// Whether the first word's number is the smaller one.
    fn less(a: u32, b: u32) -> bool
        ensures { result ≡ kind.less a b };

    /// The number as an index of an array, from 0 on, where it can be one.
    fn index(w: u32) -> Option<u32>
        ensures { result ≡ kind.index w };

    ghost smallest_is: { SMALLEST ≡ kind.least };

    ghost largest_is: { LARGEST ≡ kind.most };

    ghost laws: { Laws kind };
}
