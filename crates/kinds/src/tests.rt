// Examples of both kinds.
use crate::fault::ArithmeticFault;
use crate::kind::NumberKind;
use crate::quotients::rounded;
use crate::single::Single;
use crate::whole::Whole;

// The faults, as the results of operations.
const OUT: Result<u32, ArithmeticFault> = Err(ArithmeticFault::OutOfRange);

const ZERO_DIVISOR: Result<u32, ArithmeticFault> = Err(ArithmeticFault::ZeroDivisor);

// The word of -2,147,483,648.
const LEAST: u32 = 0x8000_0000;

fn word(n: i32) -> u32 {
    n.cast_unsigned()
}

#[test]
fn whole_numbers(rt: HostRuntime) {
    assert_eq!(rt; Whole::add(word(2147483647), word(1)), OUT);
    assert_eq!(rt; Whole::index(word(-1)), None);
    assert_eq!(rt; Whole::constant(-2147483648), Some(0x8000_0000));
    assert_eq!(rt; Whole::constant(2147483647), Some(0x7fff_ffff));
}

#[test]
fn whole_quotients(rt: HostRuntime) {
    // the nearest, between two as near the one further from zero
    assert_eq!(rt; Whole::divide(word(7), word(3)), Ok(word(2)));
    assert_eq!(rt; Whole::divide(word(8), word(3)), Ok(word(3)));
    assert_eq!(rt; Whole::divide(word(1), word(3)), Ok(word(0)));
    assert_eq!(rt; Whole::divide(word(7), word(2)), Ok(word(4)));
    assert_eq!(rt; Whole::divide(word(-7), word(2)), Ok(word(-4)));
    assert_eq!(rt; Whole::divide(word(1), word(-2)), Ok(word(-1)));
    assert_eq!(rt; Whole::divide(word(-1), word(2)), Ok(word(-1)));
    assert_eq!(rt; Whole::divide(word(-1), word(-2)), Ok(word(1)));
}

#[test]
fn whole_quotients_at_the_ends(rt: HostRuntime) {
    assert_eq!(rt; Whole::divide(LEAST, word(-1)), OUT);
    assert_eq!(rt; Whole::divide(LEAST, word(1)), Ok(LEAST));
    assert_eq!(rt; Whole::divide(LEAST, LEAST), Ok(word(1)));
    assert_eq!(rt; Whole::divide(word(2147483647), LEAST), Ok(word(-1)));
    // a half of -2,147,483,648 rounds away from zero, a little less does not
    assert_eq!(rt; Whole::divide(word(1073741824), LEAST), Ok(word(-1)));
    assert_eq!(rt; Whole::divide(word(1073741823), LEAST), Ok(word(0)));
    // a zero divisor is looked at first
    assert_eq!(rt; Whole::divide(word(5), word(0)), ZERO_DIVISOR);
    assert_eq!(rt; Whole::divide(LEAST, word(0)), ZERO_DIVISOR);
    assert_eq!(rt; Whole::divide(word(0), word(0)), ZERO_DIVISOR);
}

#[test]
fn quotients_of_products(rt: HostRuntime) {
    // 2 ^ 62, the largest product of two numbers of 32 bits, in parts of 2 ^ 16
    assert_eq!(rt; rounded(4611686018427387904, 65536), 70368744177664);
    assert_eq!(rt; rounded(-98304, 65536), -2);
    assert_eq!(rt; rounded(-98303, 65536), -1);
}

#[test]
fn single_words(rt: HostRuntime) {
    assert!(rt; Single::is_lawful(2139095039));
    assert!(rt; !Single::is_lawful(2139095040));
    assert_eq!(rt; Single::constant(-16777216), Some(0xcb80_0000));
    assert_eq!(rt; Single::constant(16777216), Some(0x4b80_0000));
    assert_eq!(rt; Single::constant(-16777217), None);
    assert_eq!(rt; Single::constant(16777217), None);
    assert_eq!(rt; Single::index(0x8000_0000), Some(0));
    assert!(rt; Single::equal(0x8000_0000, 0));
    assert!(rt; !Single::less(0x8000_0000, 0));
}

#[test]
fn single_numbers(rt: HostRuntime) {
    // 1 / 3, and the largest number twice
    assert_eq!(rt; Single::divide(0x3f80_0000, 0x4040_0000), Ok(0x3eaa_aaab));
    assert_eq!(rt; Single::add(2139095039, 2139095039), OUT);
    assert_eq!(rt; Single::divide(0x3f80_0000, 0x8000_0000), ZERO_DIVISOR);
    // half of the smallest number, and of three times it: both lie halfway, and the even word is taken
    assert_eq!(rt; Single::multiply(1, 0x3f00_0000), Ok(0));
    assert_eq!(rt; Single::multiply(3, 0x3f00_0000), Ok(2));
}

#[test]
fn fault_numbers(rt: HostRuntime) {
    assert_eq!(rt; u8::from(ArithmeticFault::OutOfRange), 21);
    assert_eq!(rt; u8::from(ArithmeticFault::ZeroDivisor), 22);
}
