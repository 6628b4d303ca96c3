// A case, and the line of text that spells it.
ghost use Rattle.std.specs.Prelude.{◌≡◌, ℕ, MatchOption};
ghost use Rattle.vectors.specs.Cases.{finite_answer, truth};
ghost use Rattle.vectors.specs.Lines.{HasSpace, IsSaid, IsSpelled, SaysAnswer, SaysWord, first, rest};

use crate::answer::{Operation, Value};
use crate::unread::Unread;
use kinds::ArithmeticFault;
use std::str::FromStr;

#[derive(Clone, Copy, PartialEq, Eq, Debug)]
pub struct Case {
    pub operation: Operation,
    pub a: u32,
    pub b: u32,
    pub wanted: Result<Value, ArithmeticFault>,
}

// A word, as a number from 0 or as a signed one in two's complement.
fn word(text: &str) -> Option<u32>
    ensures { MatchOption result ((w : ℕ) → ¬ SaysWord text.now w) (λ w. SaysWord text.now w) }
{
    if let Ok(word) = text.parse::<u32>() {
        return Some(word);
    }
    match text.parse::<i32>() {
        Ok(number) => Some(number.cast_unsigned()),
        Err(_) => None,
    }
}

// 1 is true and 0 is false where a comparison is asked for.
fn comparison(w: u32) -> Option<Value>
    ensures { result ≡ truth w }
{
    match w {
        0 => Some(Value::Truth(false)),
        1 => Some(Value::Truth(true)),
        _ => None,
    }
}

// What an operation is to give: a fault in words, or else a number.
fn wanted(operation: Operation, text: &str) -> Option<Result<Value, ArithmeticFault>>
    ensures { MatchOption result ((answer : _) → ¬ SaysAnswer operation text.now answer) (λ answer. SaysAnswer operation text.now answer) }
{
    match text {
        "out" => Some(Err(ArithmeticFault::OutOfRange)),
        "zero" | "nan" => Some(Err(ArithmeticFault::ZeroDivisor)),
        _ => {
            let word = word(text)?;
            match operation {
                Operation::Equal | Operation::Less => comparison(word).map(Ok),
                _ => Some(Ok(Value::Word(word))),
            }
        }
    }
}

// The text before the first space, and that after it.
fn at_space(text: &str) -> Option<(&str, &str)>
    ensures { MatchOption result (¬ HasSpace text.now) (λ parts. HasSpace text.now × (parts.0.now ≡ first text.now) × (parts.1.now ≡ rest text.now)) }
{
    text.split_once(' ')
}

// The case of an operation whose words and answer the texts say.
fn read_case(operation: Operation, a: &str, b: &str, answer: &str) -> Option<Case>
    ensures { MatchOption result ((c : _) → ¬ IsSaid operation a.now b.now answer.now c) (IsSaid operation a.now b.now answer.now) }
{
    Some(Case {
        operation,
        a: word(a)?,
        b: word(b)?,
        wanted: wanted(operation, answer)?,
    })
}

// An operation, two words and what they are to give, parted by single spaces.
impl FromStr for Case {
    type Err = Unread;

    ghost from_str_gives = { IsSpelled };

    fn from_str(line: &str) -> Result<Case, Unread> {
        let Some((operation, rest)) = at_space(line) else {
            return Err(Unread);
        };
        let Some((a, rest)) = at_space(rest) else {
            return Err(Unread);
        };
        let Some((b, answer)) = at_space(rest) else {
            return Err(Unread);
        };
        let operation = operation.parse::<Operation>()?;
        read_case(operation, a, b, answer).ok_or(Unread)
    }
}

// A published case of binary32, which has infinities, as a kind without them has it.
pub(crate) fn finite(case: Case) -> Case
    ensures { result ≡ finite_answer case }
{
    let wanted = match case.wanted {
        Ok(Value::Word(0x7f80_0000 | 0xff80_0000)) => {
            if case.operation == Operation::Divide && matches!(case.b, 0 | 0x8000_0000) {
                Err(ArithmeticFault::ZeroDivisor)
            } else {
                Err(ArithmeticFault::OutOfRange)
            }
        }
        other => other,
    };
    Case { wanted, ..case }
}
