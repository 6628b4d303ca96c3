// Whole's arithmetic and constants, in exact integers. One function for each operation, since what differs is the theorem.
ghost use Rattle.std.specs.Prelude.{◌≡◌, Some, None, ◌+ℤ◌, ◌-ℤ◌, ◌*ℤ◌};
ghost use Rattle.kinds.specs.Whole.{value};
ghost use Rattle.kind_laws.specs.Dividing.{Divided};
ghost use Rattle.kind_laws.specs.Fitting.{Gives};

use crate::theorems::{
    differences_are_exact, products_are_exact, quotients_are_nearest, sums_are_exact,
};
use kinds::{ArithmeticFault, NumberKind, Whole};

/// The word whose value is exactly the sum of the two words' values, where that lies in -2,147,483,648 to 2,147,483,647.
///
/// # Errors
///
/// `OutOfRange` exactly where it does not; never `ZeroDivisor`.
pub fn exact_sum(a: u32, b: u32) -> Result<u32, ArithmeticFault>
    ensures { Gives (value a +ℤ value b) result }
{
    sums_are_exact();
    Whole::add(a, b)
}

/// The same of the difference, the first value less the second.
///
/// # Errors
///
/// `OutOfRange` exactly where the difference lies outside that range; never `ZeroDivisor`.
pub fn exact_difference(a: u32, b: u32) -> Result<u32, ArithmeticFault>
    ensures { Gives (value a -ℤ value b) result }
{
    differences_are_exact();
    Whole::subtract(a, b)
}

/// The same of the product.
///
/// # Errors
///
/// `OutOfRange` exactly where the product lies outside that range; never `ZeroDivisor`.
pub fn exact_product(a: u32, b: u32) -> Result<u32, ArithmeticFault>
    ensures { Gives (value a *ℤ value b) result }
{
    products_are_exact();
    Whole::multiply(a, b)
}

/// The word of the whole number nearest to the exact quotient of the two words' values, where that lies in that range;
/// of two as near, of the one further from zero.
///
/// # Errors
///
/// `ZeroDivisor` exactly where the second value is 0; `OutOfRange` exactly where the quotient lies outside the range,
/// which is so of -2,147,483,648 by -1 alone.
pub fn nearest_quotient(a: u32, b: u32) -> Result<u32, ArithmeticFault>
    ensures { Divided (value a) (value b) result }
{
    quotients_are_nearest();
    Whole::divide(a, b)
}

/// The word whose value is n, for each n.
pub fn constant_value(n: i32) -> Option<u32>
    ensures { elim result [ Some w ↦ value w ≡ n | None ↦ ⊥ ] }
{
    Whole::constant(n)
}
