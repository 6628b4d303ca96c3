// What a line is in the text, and which lines it names.
ghost use Rattle.std.specs.Prelude.{◌≡◌, Some};
ghost use Rattle.script.specs.Fields.{class_of, fields, fits};
ghost use Rattle.acceptance.specs.Classes.{class_meant, field_meant, fields_meant};

use lines::records::{Line, LineNumber};

// What a line is in the text.
#[derive(Clone, Copy, PartialEq, Eq, Debug)]
pub(crate) enum Class {
    Place,
    Expression,
    Condition,
    Statement,
    Declarations,
}

// A field that names another line: the class wanted there, and its number.
#[derive(Clone, Copy, PartialEq, Eq, Debug)]
pub(crate) struct LineField {
    pub wanted: Class,
    pub line: usize,
}

// The fields of one line that name others, in their order: three at most. Variants, and no array of options: tried, a test of the
// fields that are there is a closure in a closure, whose proof does not close. A vector of fixed size would want an empty field.
#[derive(Clone, Copy, PartialEq, Eq, Debug)]
pub(crate) enum LineFields {
    Zero,
    One(LineField),
    Two(LineField, LineField),
    Three(LineField, LineField, LineField),
}

// What a line is; a global is no part of the text.
pub(crate) fn class_of(line: Line) -> Option<Class>
    ensures { class_meant result ≡ class_of line }
{
    match line {
        Line::Global { .. } => None,
        Line::Simple { .. } | Line::Element { .. } => Some(Class::Place),
        Line::Constant { .. } | Line::Operation { .. } | Line::Choice { .. } => Some(
            Class::Expression,
        ),
        Line::Truth { .. }
        | Line::Comparison { .. }
        | Line::Negation { .. }
        | Line::Implication { .. } => Some(Class::Condition),
        Line::Procedure { .. } | Line::Join { .. } => Some(Class::Declarations),
        Line::Assignment { .. }
        | Line::Sequence { .. }
        | Line::Branch { .. }
        | Line::Call { .. }
        | Line::NewSimple { .. }
        | Line::NewArray { .. }
        | Line::System { .. } => Some(Class::Statement),
    }
}

impl Class {
    // Whether a line of the class `found` may stand where this class is wanted: a variable stands for the expression that its word is.
    pub(crate) fn fits(self, found: Option<Class>) -> bool
        ensures { result ≡ fits (class_meant (Some self)) (class_meant found) }
    {
        match (self, found) {
            (Class::Expression, Some(Class::Place)) => true,
            (wanted, Some(found)) => wanted == found,
            (_, None) => false,
        }
    }
}

impl LineField {
    fn new(wanted: Class, line: LineNumber) -> LineField
        ensures { field_meant result ≡ (class_meant (Some wanted), line) }
    {
        LineField {
            wanted,
            line: line as usize,
        }
    }
}

// The fields of a line that name others.
pub(crate) fn fields(line: Line) -> LineFields
    ensures { fields_meant result ≡ fields line }
{
    match line {
        Line::Global { .. } | Line::Constant { .. } | Line::Simple { .. } | Line::Truth { .. } =>
            LineFields::Zero,
        Line::Element { index, .. } => LineFields::One(LineField::new(Class::Expression, index)),
        Line::Negation { condition } => LineFields::One(LineField::new(
            Class::Condition,
            condition,
        )),
        Line::NewSimple { body, .. } | Line::NewArray { body, .. } | Line::Procedure { body, .. } =>
            LineFields::One(LineField::new(Class::Statement, body)),
        Line::Operation { left, right, .. } | Line::Comparison { left, right, .. } => {
            LineFields::Two(
                LineField::new(Class::Expression, left),
                LineField::new(Class::Expression, right),
            )
        }
        Line::Implication {
            premise,
            conclusion,
        } => LineFields::Two(
            LineField::new(Class::Condition, premise),
            LineField::new(Class::Condition, conclusion),
        ),
        Line::Assignment { variable, value } => LineFields::Two(
            LineField::new(Class::Place, variable),
            LineField::new(Class::Expression, value),
        ),
        Line::Sequence { first, second } => LineFields::Two(
            LineField::new(Class::Statement, first),
            LineField::new(Class::Statement, second),
        ),
        Line::Call {
            value,
            variable,
            ..
        } => LineFields::Two(
            LineField::new(Class::Expression, value),
            LineField::new(Class::Place, variable),
        ),
        Line::System { declarations, body } => LineFields::Two(
            LineField::new(Class::Declarations, declarations),
            LineField::new(Class::Statement, body),
        ),
        Line::Join { first, second } => LineFields::Two(
            LineField::new(Class::Declarations, first),
            LineField::new(Class::Declarations, second),
        ),
        Line::Choice {
            condition,
            chosen,
            otherwise,
        } => {
            LineFields::Three(
                LineField::new(Class::Condition, condition),
                LineField::new(Class::Expression, chosen),
                LineField::new(Class::Expression, otherwise),
            )
        }
        Line::Branch {
            condition,
            chosen,
            otherwise,
        } => {
            LineFields::Three(
                LineField::new(Class::Condition, condition),
                LineField::new(Class::Statement, chosen),
                LineField::new(Class::Statement, otherwise),
            )
        }
    }
}
