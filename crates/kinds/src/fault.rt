// Why an operation on two numbers has no result.
ghost use Rattle.std.specs.Prelude.{◌≡◌, Some};
ghost use Rattle.kinds.specs.Faults.{numbered, in_words};

use std::error::Error;
use std::fmt;

#[derive(Clone, Copy, PartialEq, Eq, Debug)]
pub enum ArithmeticFault {
    OutOfRange = 21,
    ZeroDivisor = 22,
}

// The number by which the fault is told.
impl From<ArithmeticFault> for u8 {
    ghost from_gives = { λ fault n. n ≡ numbered fault };

    fn from(fault: ArithmeticFault) -> u8 {
        fault as u8
    }
}

impl fmt::Display for ArithmeticFault {
    // by hand: the text is promised, which a derive does not state
    ghost output = { λ fault. Some (in_words fault) };

    fn fmt<W: fmt::Write>(&self, f: &mut fmt::Formatter<W>) -> fmt::Result {
        f.write_str(match self {
            ArithmeticFault::OutOfRange => "outside the range of the kind",
            ArithmeticFault::ZeroDivisor => "a zero divisor",
        })
    }
}

impl Error for ArithmeticFault {}
