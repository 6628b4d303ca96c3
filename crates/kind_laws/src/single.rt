// Single's operations, in exact numbers. Each contract speaks of lawful words: a premise, since a type of them would ask more of
// callers. One function for each operation, since what differs is the theorem.
ghost use Rattle.std.specs.Prelude.{◌≡◌, T, Some, int_lt};
ghost use Rattle.kinds.specs.Single.{lawful};
ghost use Rattle.kind_laws.specs.Comparing.{Constant, Equality, Index};
ghost use Rattle.kind_laws.specs.Exact.{units};
ghost use Rattle.kind_laws.specs.Rounding.{Difference, Product, Quotient, Sum};

use crate::theorems::{
    constants_are_exact, differences_round, equality_is_of_numbers, indexes_are_exact,
    order_is_of_numbers, products_round, quotients_round, sums_round, zero_is_constant,
};
use kinds::{ArithmeticFault, NumberKind, Single};

/// The word nearest to the exact sum of the two words' numbers, at a tie the even one.
///
/// # Errors
///
/// `OutOfRange` where the nearest would be 2 ^ 128 or more, of either sign.
pub fn rounded_sum(a: u32, b: u32) -> Result<u32, ArithmeticFault>
    ensures { T (lawful a) → T (lawful b) → Sum a b result }
{
    sums_round();
    Single::add(a, b)
}

/// The same of the difference, the first number less the second.
///
/// # Errors
///
/// `OutOfRange` where the nearest would be 2 ^ 128 or more, of either sign.
pub fn rounded_difference(a: u32, b: u32) -> Result<u32, ArithmeticFault>
    ensures { T (lawful a) → T (lawful b) → Difference a b result }
{
    differences_round();
    Single::subtract(a, b)
}

/// The same of the product.
///
/// # Errors
///
/// `OutOfRange` where the nearest would be 2 ^ 128 or more, of either sign.
pub fn rounded_product(a: u32, b: u32) -> Result<u32, ArithmeticFault>
    ensures { T (lawful a) → T (lawful b) → Product a b result }
{
    products_round();
    Single::multiply(a, b)
}

/// The same of the quotient.
///
/// # Errors
///
/// `ZeroDivisor` where the second number is 0, and else `OutOfRange` where the nearest would be 2 ^ 128 or more, of either sign.
pub fn rounded_quotient(a: u32, b: u32) -> Result<u32, ArithmeticFault>
    ensures { T (lawful a) → T (lawful b) → Quotient a b result }
{
    quotients_round();
    Single::divide(a, b)
}

/// Whether two words stand for the same number, as the two zeros do.
pub fn same_number(a: u32, b: u32) -> bool
    ensures { T (lawful a) → T (lawful b) → Equality a b result }
{
    equality_is_of_numbers();
    Single::equal(a, b)
}

/// Whether the first word's number is the smaller one.
pub fn smaller_number(a: u32, b: u32) -> bool
    ensures { T (lawful a) → T (lawful b) → result ≡ int_lt (units a) (units b) }
{
    order_is_of_numbers();
    Single::less(a, b)
}

/// The word whose number is exactly n; `None` exactly outside -16,777,216 to 16,777,216.
pub fn exact_constant(n: i32) -> Option<u32>
    ensures { Constant n result }
{
    constants_are_exact();
    Single::constant(n)
}

/// The word of the constant 0: the one that a new cell holds, and not the word of minus zero.
pub fn zero_constant() -> Option<u32>
    ensures { result ≡ Some 0 }
{
    zero_is_constant();
    Single::constant(0)
}

/// The n from 0 to 16,777,215 that the word's number is exactly; `None` where it is none of them.
pub fn exact_index(w: u32) -> Option<u32>
    ensures { T (lawful w) → Index w result }
{
    indexes_are_exact();
    Single::index(w)
}
