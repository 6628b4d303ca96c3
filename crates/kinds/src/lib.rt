// Number kinds: what 32-bit words stand for, and what arithmetic does with them.
#![tactic(auto)]

mod fault;
mod kind;
mod quotients;
mod single;
#[cfg(test)]
mod tests;
mod whole;

pub use fault::ArithmeticFault;
pub use kind::NumberKind;
pub use single::Single;
pub use whole::Whole;
