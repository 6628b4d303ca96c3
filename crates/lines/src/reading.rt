// One line of a sheet.
ghost use Rattle.std.specs.Prelude.{◌≡◌};
ghost use Rattle.std.specs.Option.{ok_or};
ghost use Rattle.lines.specs.declared.refusals.Cause.TheVariants.{Kind};
ghost use Rattle.lines.specs.Lines.{expression_line, condition_line, statement_line, declaration_line, line_of};
ghost use Rattle.lines.specs.Reading.{kind_of, is_number, line_reading};

use crate::records::Line;
use crate::refusals::Cause;
use crate::shapes::{AConstant, ALine, AName, ArrayLength, GlobalLength, Unused, four};
use crate::sorts::{ConditionSort, DeclarationSort, ExpressionSort, Sort, StatementSort};
use text::fields::{Fields, six_fields};
use text::numbers::read_number;

// Here and below the definitions take the four fields one by one, as the card's format tells of them.
fn expression_line(sort: ExpressionSort, f: &Fields<'_>) -> Option<Line>
    ensures { result ≡ expression_line sort f.now.a.now f.now.b.now f.now.c.now f.now.d.now }
{
    match sort {
        ExpressionSort::Constant => {
            let (value, _, _, _) = four::<AConstant, Unused, Unused, Unused>(f)?;
            Some(Line::Constant { value })
        }
        ExpressionSort::Simple => {
            let (name, _, _, _) = four::<AName, Unused, Unused, Unused>(f)?;
            Some(Line::Simple { name })
        }
        ExpressionSort::Element => {
            let (name, index, _, _) = four::<AName, ALine, Unused, Unused>(f)?;
            Some(Line::Element { name, index })
        }
        ExpressionSort::Operation(operator) => {
            let (left, right, _, _) = four::<ALine, ALine, Unused, Unused>(f)?;
            Some(Line::Operation {
                operator,
                left,
                right,
            })
        }
        ExpressionSort::Choice => {
            let (condition, chosen, otherwise, _) = four::<ALine, ALine, ALine, Unused>(f)?;
            Some(Line::Choice {
                condition,
                chosen,
                otherwise,
            })
        }
    }
}

fn condition_line(sort: ConditionSort, f: &Fields<'_>) -> Option<Line>
    ensures { result ≡ condition_line sort f.now.a.now f.now.b.now f.now.c.now f.now.d.now }
{
    match sort {
        ConditionSort::Truth(value) => {
            four::<Unused, Unused, Unused, Unused>(f)?;
            Some(Line::Truth { value })
        }
        ConditionSort::Comparison(relation) => {
            let (left, right, _, _) = four::<ALine, ALine, Unused, Unused>(f)?;
            Some(Line::Comparison {
                relation,
                left,
                right,
            })
        }
        ConditionSort::Negation => {
            let (condition, _, _, _) = four::<ALine, Unused, Unused, Unused>(f)?;
            Some(Line::Negation { condition })
        }
        ConditionSort::Implication => {
            let (premise, conclusion, _, _) = four::<ALine, ALine, Unused, Unused>(f)?;
            Some(Line::Implication {
                premise,
                conclusion,
            })
        }
    }
}

fn statement_line(sort: StatementSort, f: &Fields<'_>) -> Option<Line>
    ensures { result ≡ statement_line sort f.now.a.now f.now.b.now f.now.c.now f.now.d.now }
{
    match sort {
        StatementSort::Assignment => {
            let (variable, value, _, _) = four::<ALine, ALine, Unused, Unused>(f)?;
            Some(Line::Assignment { variable, value })
        }
        StatementSort::Sequence => {
            let (first, second, _, _) = four::<ALine, ALine, Unused, Unused>(f)?;
            Some(Line::Sequence { first, second })
        }
        StatementSort::Branch => {
            let (condition, chosen, otherwise, _) = four::<ALine, ALine, ALine, Unused>(f)?;
            Some(Line::Branch {
                condition,
                chosen,
                otherwise,
            })
        }
        StatementSort::Call => {
            let (procedure, value, variable, _) = four::<AName, ALine, ALine, Unused>(f)?;
            Some(Line::Call {
                procedure,
                value,
                variable,
            })
        }
        StatementSort::NewSimple => {
            let (name, body, _, _) = four::<AName, ALine, Unused, Unused>(f)?;
            Some(Line::NewSimple { name, body })
        }
        StatementSort::NewArray => {
            let (name, length, body, _) = four::<AName, ArrayLength, ALine, Unused>(f)?;
            Some(Line::NewArray { name, length, body })
        }
        StatementSort::System => {
            let (declarations, body, _, _) = four::<ALine, ALine, Unused, Unused>(f)?;
            Some(Line::System { declarations, body })
        }
    }
}

fn declaration_line(sort: DeclarationSort, f: &Fields<'_>) -> Option<Line>
    ensures { result ≡ declaration_line sort f.now.a.now f.now.b.now f.now.c.now f.now.d.now }
{
    match sort {
        DeclarationSort::Procedure => {
            let (name, value_formal, variable_formal, body) = four::<AName, AName, AName, ALine>(
                f,
            )?;
            Some(Line::Procedure {
                name,
                value_formal,
                variable_formal,
                body,
            })
        }
        DeclarationSort::Join => {
            let (first, second, _, _) = four::<ALine, ALine, Unused, Unused>(f)?;
            Some(Line::Join { first, second })
        }
    }
}

// What a line of that sort says, by its four fields.
fn line_of(sort: Sort, f: &Fields<'_>) -> Option<Line>
    ensures { result ≡ line_of sort f.now.a.now f.now.b.now f.now.c.now f.now.d.now }
{
    match sort {
        Sort::Global => {
            let (name, length, _, _) = four::<AName, GlobalLength, Unused, Unused>(f)?;
            Some(Line::Global { name, length })
        }
        Sort::Expression(sort) => expression_line(sort, f),
        Sort::Condition(sort) => condition_line(sort, f),
        Sort::Statement(sort) => statement_line(sort, f),
        Sort::Declaration(sort) => declaration_line(sort, f),
    }
}

// The sort that a kind field stands for: it is one known character.
fn kind_of(field: &[u8]) -> Result<Sort, Cause>
    ensures { result ≡ ok_or (kind_of field.now) Kind }
{
    match field {
        [character] => Sort::try_from(*character),
        _ => Err(Cause::Kind),
    }
}

// Whether a field spells that number.
fn spells(field: &[u8], number: u16) -> bool
    ensures { result ≡ is_number number field.now }
{
    read_number(field, 2048) == Some(number as u64)
}

// What the line of that number says, or why it is refused.
pub fn read_line(line: &[u8], number: u16) -> Result<Line, Cause>
    ensures { result ≡ line_reading number line.now }
{
    let f = six_fields(line).ok_or(Cause::Form)?;
    if !spells(f.number, number) {
        return Err(Cause::Field);
    }
    let sort = kind_of(f.kind)?;
    line_of(sort, &f).ok_or(Cause::Field)
}
