// What a number kind gives for an operation on two words.
ghost use Rattle.std.specs.Prelude.{◌≡◌, Some};
ghost use Rattle.vectors.specs.Answers.{answered};
ghost use Rattle.vectors.specs.Names.{name_of, IsNamed};

use crate::unread::Unread;
use kinds::{ArithmeticFault, NumberKind};
use std::fmt;
use std::str::FromStr;

#[derive(Clone, Copy, PartialEq, Eq, Debug)]
pub enum Operation {
    Add,
    Subtract,
    Multiply,
    Divide,
    Equal,
    Less,
}

impl Operation {
    pub const ALL: [Operation; 6] = [
        Operation::Add,
        Operation::Subtract,
        Operation::Multiply,
        Operation::Divide,
        Operation::Equal,
        Operation::Less,
    ];
}

impl fmt::Display for Operation {
    ghost output = { λ operation. Some (name_of operation) };

    fn fmt<W: fmt::Write>(&self, f: &mut fmt::Formatter<W>) -> fmt::Result {
        f.write_str(match self {
            Operation::Add => "add",
            Operation::Subtract => "sub",
            Operation::Multiply => "mul",
            Operation::Divide => "div",
            Operation::Equal => "eq",
            Operation::Less => "lt",
        })
    }
}

impl FromStr for Operation {
    type Err = Unread;

    ghost from_str_gives = { IsNamed };

    fn from_str(text: &str) -> Result<Operation, Unread> {
        match text {
            "add" => Ok(Operation::Add),
            "sub" => Ok(Operation::Subtract),
            "mul" => Ok(Operation::Multiply),
            "div" => Ok(Operation::Divide),
            "eq" => Ok(Operation::Equal),
            "lt" => Ok(Operation::Less),
            _ => Err(Unread),
        }
    }
}

// What an operation gives where it has a result.
#[derive(Clone, Copy, PartialEq, Eq, Debug)]
pub enum Value {
    Word(u32),
    Truth(bool),
}

// A match, since a file says which operation it is.
pub(crate) fn answer_of<K: NumberKind>(
    operation: Operation,
    a: u32,
    b: u32,
) -> Result<Value, ArithmeticFault>
    ensures { result ≡ answered K.kind operation a b }
{
    match operation {
        Operation::Add => K::add(a, b).map(Value::Word),
        Operation::Subtract => K::subtract(a, b).map(Value::Word),
        Operation::Multiply => K::multiply(a, b).map(Value::Word),
        Operation::Divide => K::divide(a, b).map(Value::Word),
        Operation::Equal => Ok(Value::Truth(K::equal(a, b))),
        Operation::Less => Ok(Value::Truth(K::less(a, b))),
    }
}
