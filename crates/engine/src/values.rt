// The values of expressions and conditions.
ghost use Rattle.std.specs.Prelude.{◌≡◌, ◌<◌, cond, not, IfSome};
ghost use Rattle.standing.specs.Records.{record_at as told_at};
ghost use Rattle.rule.specs.Work.{gives, next};
ghost use Rattle.rule.specs.Values.{indexed, material, operate, compare};
ghost use Rattle.faults.specs.Faults.{told};
ghost use Rattle.rule.specs.Handed.{handed};
ghost use Rattle.engine.specs.Working.{known_cell, known_element, ValueIs, TruthIs, CellIs};

use crate::frame::Stand;
use crate::scene::{Scene, record_at};
use faults::Fault;
use kinds::NumberKind;
use lines::records::{Line, LineNumber, Record};
use lines::sorts::{Operator, Relation};
use stores::Store;

// The cell of a simple variable.
fn cell(stand: Option<Stand>) -> Result<usize, Fault>
    ensures { told result ≡ known_cell stand }
{
    match stand {
        Some(Stand::Cell(at)) => Ok(at),
        _ => Err(Fault::Refused),
    }
}

// The cell of element i of an array.
fn within(stand: Option<Stand>, i: u32) -> Result<usize, Fault>
    ensures { told result ≡ known_element stand i }
{
    match stand {
        Some(Stand::Cells { first, length }) => {
            if i < length as u32 {
                Ok(first as usize + i as usize)
            } else {
                Err(Fault::NoElement)
            }
        }
        _ => Err(Fault::Refused),
    }
}

// What an operation of the kind gives.
fn operation<K: NumberKind>(operator: Operator, left: u32, right: u32) -> Result<u32, Fault>
    ensures { told result ≡ operate K.kind operator left right }
{
    match operator {
        Operator::Plus => Ok(K::add(left, right)?),
        Operator::Minus => Ok(K::subtract(left, right)?),
        Operator::Times => Ok(K::multiply(left, right)?),
        Operator::Over => Ok(K::divide(left, right)?),
    }
}

fn comparison<K: NumberKind>(relation: Relation, left: u32, right: u32) -> bool
    ensures { result ≡ compare K.kind relation left right }
{
    match relation {
        Relation::Equal => K::equal(left, right),
        Relation::Less => K::less(left, right),
    }
}

// Whether a premise that holds or not implies a conclusion that does or not.
fn implied(premise: bool, conclusion: bool) -> bool
    ensures { result ≡ material premise conclusion }
{
    !premise || conclusion
}

// The one of two lines that a condition chooses.
pub(crate) fn taken(holds: bool, chosen: LineNumber, otherwise: LineNumber) -> LineNumber
    ensures { result ≡ cond holds chosen otherwise }
{
    if holds { chosen } else { otherwise }
}

impl<'r, 'a, S: Store> Scene<'r, 'a, S> {
    // The word of a cell.
    fn fetch<K: NumberKind>(&self, cell: usize) -> Result<u32, Fault>
        ensures { told result ≡ handed K.kind (S.words self.now.store.now) cell }
    {
        let word = self.store.load(cell).ok_or(Fault::Refused)?;
        if K::is_lawful(word) {
            Ok(word)
        } else {
            Err(Fault::Refused)
        }
    }

    // The record of a line that is before another.
    fn earlier(&self, below: LineNumber, line: LineNumber) -> Option<Record>
        ensures told { line < below → result ≡ told_at self.now.records.now line }
        ensures earlier { IfSome result (λ r. line < below) }
    {
        if line < below {
            record_at(self.records, line)
        } else {
            None
        }
    }

    // The value of the expression at a line before `below`.
    #[cycle(holds_place_value)]
    pub(crate) fn value<K: NumberKind>(
        &self,
        below: LineNumber,
        line: LineNumber,
    ) -> Result<u32, Fault>
        ensures { ValueIs K.kind self.now.records.now self.now.frames.now self.now.level (S.words self.now.store.now) below line result }
    {
        let Some(record) = self.earlier(below, line) else {
            return Err(Fault::Refused);
        };
        match record.line {
            Line::Constant { value } => K::constant(value).ok_or(Fault::Refused),
            Line::Simple { .. } | Line::Element { .. } => {
                let cell = self.place::<K>(below, line)?;
                self.fetch::<K>(cell)
            }
            Line::Operation {
                operator,
                left,
                right,
            } => {
                let a = self.value::<K>(line, left)?;
                let b = self.value::<K>(line, right)?;
                operation::<K>(operator, a, b)
            }
            Line::Choice {
                condition,
                chosen,
                otherwise,
            } => {
                let holds = self.holds::<K>(line, condition)?;
                self.value::<K>(line, taken(holds, chosen, otherwise))
            }
            _ => Err(Fault::Refused),
        }
    }

    // Whether the condition at a line before `below` holds.
    #[cycle(holds_place_value)]
    pub(crate) fn holds<K: NumberKind>(
        &self,
        below: LineNumber,
        line: LineNumber,
    ) -> Result<bool, Fault>
        ensures { TruthIs K.kind self.now.records.now self.now.frames.now self.now.level (S.words self.now.store.now) below line result }
    {
        let Some(record) = self.earlier(below, line) else {
            return Err(Fault::Refused);
        };
        match record.line {
            Line::Truth { value } => Ok(value),
            Line::Comparison {
                relation,
                left,
                right,
            } => {
                let a = self.value::<K>(line, left)?;
                let b = self.value::<K>(line, right)?;
                Ok(comparison::<K>(relation, a, b))
            }
            Line::Negation { condition } => {
                let holds = self.holds::<K>(line, condition)?;
                Ok(!holds)
            }
            Line::Implication {
                premise,
                conclusion,
            } => {
                let a = self.holds::<K>(line, premise)?;
                let b = self.holds::<K>(line, conclusion)?;
                Ok(implied(a, b))
            }
            _ => Err(Fault::Refused),
        }
    }

    // The cell of the place at a line before `below`.
    #[cycle(holds_place_value)]
    pub(crate) fn place<K: NumberKind>(
        &self,
        below: LineNumber,
        line: LineNumber,
    ) -> Result<usize, Fault>
        ensures { CellIs K.kind self.now.records.now self.now.frames.now self.now.level (S.words self.now.store.now) below line result }
    {
        let Some(record) = self.earlier(below, line) else {
            return Err(Fault::Refused);
        };
        match record.line {
            Line::Simple { .. } => cell(self.named(record.declaration)),
            Line::Element { index, .. } => {
                let word = self.value::<K>(line, index)?;
                let Some(i) = K::index(word) else {
                    return Err(Fault::NoElement);
                };
                within(self.named(record.declaration), i)
            }
            _ => Err(Fault::Refused),
        }
    }
}
