// Why a run faults.
ghost use Rattle.std.specs.Prelude.{◌≡◌, Some};
ghost use Rattle.faults.specs.Faults.{number_of, meaning_of, of_arithmetic};

use kinds::ArithmeticFault;
use std::error::Error;
use std::fmt;

#[derive(Clone, Copy, PartialEq, Eq, Debug)]
pub enum Fault {
    OutOfRange = 21,
    ZeroDivisor = 22,
    NoElement = 23,
    TooDeep = 24,
    NoCells = 25,
    // the store that was handed over refuses a place, or holds an unlawful word
    Refused = 26,
}

// The number by which the fault is told.
impl From<Fault> for u8 {
    ghost from_gives = { λ fault n. n ≡ number_of fault };

    fn from(fault: Fault) -> u8 {
        fault as u8
    }
}

// A fault of arithmetic is one of a run.
impl From<ArithmeticFault> for Fault {
    ghost from_gives = { λ fault f. f ≡ of_arithmetic fault };

    fn from(fault: ArithmeticFault) -> Fault {
        match fault {
            ArithmeticFault::OutOfRange => Fault::OutOfRange,
            ArithmeticFault::ZeroDivisor => Fault::ZeroDivisor,
        }
    }
}

impl Fault {
    // What it means, in plain words.
    pub fn meaning(self) -> &'static str
        ensures { result.now ≡ meaning_of self }
    {
        match self {
            Fault::OutOfRange => "a result outside the range of the number kind",
            Fault::ZeroDivisor => "a zero divisor",
            Fault::NoElement => "no such element of an array",
            Fault::TooDeep => "more than 512 levels",
            Fault::NoCells => "no cells left",
            Fault::Refused => "the store refuses a place or holds an unlawful word",
        }
    }
}

impl fmt::Display for Fault {
    // by hand: the text is promised, which a derive does not state
    ghost output = { λ fault. Some (meaning_of fault) };

    fn fmt<W: fmt::Write>(&self, f: &mut fmt::Formatter<W>) -> fmt::Result {
        f.write_str(self.meaning())
    }
}

impl Error for Fault {}
