// How many lines of each kind a sheet has.
ghost use Rattle.std.specs.Prelude.{◌≡◌};
ghost use Rattle.account.specs.Characters.{character_of, count_of};

use lines::records::{Line, Record};

// The character that stands for the kind of a line. A line says more than its kind, so this is no `From`.
pub fn kind_character(line: Line) -> u8
    ensures { result ≡ character_of line }
{
    match line {
        Line::Global { .. } => b'g',
        Line::Constant { .. } => b'k',
        Line::Simple { .. } => b'x',
        Line::Element { .. } => b'a',
        Line::Operation { operator, .. } => operator.into(),
        Line::Comparison { relation, .. } => relation.into(),
        Line::Choice { .. } => b'?',
        Line::Truth { value } => if value { b't' } else { b'f' },
        Line::Negation { .. } => b'!',
        Line::Implication { .. } => b'>',
        Line::Assignment { .. } => b's',
        Line::Sequence { .. } => b';',
        Line::Branch { .. } => b'i',
        Line::Call { .. } => b'p',
        Line::NewSimple { .. } => b'v',
        Line::NewArray { .. } => b'r',
        Line::System { .. } => b'e',
        Line::Procedure { .. } => b'd',
        Line::Join { .. } => b'&',
    }
}

// How many of the lines are of that kind.
pub fn count_kind(records: &[Record], character: u8) -> usize
    ensures { result ≡ count_of character records.now }
{
    records
        .iter()
        .filter(|record| kind_character(record.line) == character)
        .count()
}
