// The sorts of lines, and the character that stands for each.
ghost use Rattle.std.specs.Prelude.{◌≡◌};
ghost use Rattle.std.specs.Option.{ok_or};
ghost use Rattle.lines.specs.declared.refusals.Cause.TheVariants.{Kind};
ghost use Rattle.lines.specs.Sorts.{operator_character, relation_character, sort_of};

use crate::refusals::Cause;

#[derive(Clone, Copy, PartialEq, Eq, Debug)]
pub enum Operator {
    Plus,
    Minus,
    Times,
    Over,
}

// The character that stands for an operator.
impl From<Operator> for u8 {
    ghost from_gives = { λ operator character. character ≡ operator_character operator };

    fn from(operator: Operator) -> u8 {
        match operator {
            Operator::Plus => b'+',
            Operator::Minus => b'-',
            Operator::Times => b'*',
            Operator::Over => b'/',
        }
    }
}

#[derive(Clone, Copy, PartialEq, Eq, Debug)]
pub enum Relation {
    Equal,
    Less,
}

// The character that stands for a relation.
impl From<Relation> for u8 {
    ghost from_gives = { λ relation character. character ≡ relation_character relation };

    fn from(relation: Relation) -> u8 {
        match relation {
            Relation::Equal => b'=',
            Relation::Less => b'<',
        }
    }
}

// What a line is. Comments give a term's meaning where its name does not.
#[derive(Clone, Copy, PartialEq, Eq, Debug)]
pub enum Sort {
    // a variable or an array that outlives the runs
    Global,
    Expression(ExpressionSort),
    Condition(ConditionSort),
    Statement(StatementSort),
    Declaration(DeclarationSort),
}

#[derive(Clone, Copy, PartialEq, Eq, Debug)]
pub enum ExpressionSort {
    Constant,
    // a simple variable
    Simple,
    // an element of an array
    Element,
    Operation(Operator),
    // one of two expressions, by a condition
    Choice,
}

#[derive(Clone, Copy, PartialEq, Eq, Debug)]
pub enum ConditionSort {
    Truth(bool),
    Comparison(Relation),
    Negation,
    Implication,
}

#[derive(Clone, Copy, PartialEq, Eq, Debug)]
pub enum StatementSort {
    Assignment,
    // one statement, then another
    Sequence,
    // one of two statements, by a condition
    Branch,
    Call,
    // a new simple variable in a statement
    NewSimple,
    // a new array in a statement
    NewArray,
    // procedures that are known in a statement
    System,
}

#[derive(Clone, Copy, PartialEq, Eq, Debug)]
pub enum DeclarationSort {
    Procedure,
    // two declarations taken together
    Join,
}

// The sort that a character stands for.
impl TryFrom<u8> for Sort {
    type Error = Cause;

    ghost try_from_gives = { λ character r. r ≡ ok_or (sort_of character) Kind };

    fn try_from(character: u8) -> Result<Sort, Cause> {
        Ok(match character as char {
            'g' => Sort::Global,
            'k' => Sort::Expression(ExpressionSort::Constant),
            'x' => Sort::Expression(ExpressionSort::Simple),
            'a' => Sort::Expression(ExpressionSort::Element),
            '+' => Sort::Expression(ExpressionSort::Operation(Operator::Plus)),
            '-' => Sort::Expression(ExpressionSort::Operation(Operator::Minus)),
            '*' => Sort::Expression(ExpressionSort::Operation(Operator::Times)),
            '/' => Sort::Expression(ExpressionSort::Operation(Operator::Over)),
            '?' => Sort::Expression(ExpressionSort::Choice),
            't' => Sort::Condition(ConditionSort::Truth(true)),
            'f' => Sort::Condition(ConditionSort::Truth(false)),
            '=' => Sort::Condition(ConditionSort::Comparison(Relation::Equal)),
            '<' => Sort::Condition(ConditionSort::Comparison(Relation::Less)),
            '!' => Sort::Condition(ConditionSort::Negation),
            '>' => Sort::Condition(ConditionSort::Implication),
            's' => Sort::Statement(StatementSort::Assignment),
            ';' => Sort::Statement(StatementSort::Sequence),
            'i' => Sort::Statement(StatementSort::Branch),
            'p' => Sort::Statement(StatementSort::Call),
            'v' => Sort::Statement(StatementSort::NewSimple),
            'r' => Sort::Statement(StatementSort::NewArray),
            'e' => Sort::Statement(StatementSort::System),
            'd' => Sort::Declaration(DeclarationSort::Procedure),
            '&' => Sort::Declaration(DeclarationSort::Join),
            _ => return Err(Cause::Kind),
        })
    }
}
