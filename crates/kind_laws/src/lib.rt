// What the number kinds' operations come to, in exact numbers.
#![tactic(auto)]

mod any;
mod single;
#[cfg(test)]
mod tests;
mod theorems;
mod whole;

pub use any::plus_constant;
pub use single::{
    exact_constant, exact_index, rounded_difference, rounded_product, rounded_quotient,
    rounded_sum, same_number, smaller_number, zero_constant,
};
pub use whole::{constant_value, exact_difference, exact_product, exact_sum, nearest_quotient};
