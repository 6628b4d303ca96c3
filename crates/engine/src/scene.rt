// What stands at a place of a running script's text: its records, the levels around, and the store.
ghost use Rattle.std.specs.Prelude.{◌≡◌, ℕ, Some};
ghost use Rattle.lines.specs.declared.records.Declaration.{Declaration as Told};
ghost use Rattle.standing.specs.Records.{record_at};
ghost use Rattle.standing.specs.Standing.{ProcedureOf};
ghost use Rattle.engine.specs.Frames.{BoundIs, StandIs, SystemIs};

use crate::frame::{Frame, Stand};
use lines::records::{Declaration, Line, LineNumber, Record, Role};
use stores::Store;

// What a run goes by: the script's records, and the cells that it may use.
#[derive(Clone, Copy)]
pub(crate) struct Run<'a> {
    pub records: &'a [Record],
    pub size: u32,
}

#[derive(Drop)]
pub(crate) struct Scene<'r, 'a, S: Store> {
    pub records: &'r [Record],
    pub frames: &'a [Frame],
    // the level of the place
    pub level: usize,
    pub store: &'a S,
}

// A procedure: the line of its system, and that of its body.
#[derive(Clone, Copy)]
pub(crate) struct Routine {
    pub system: LineNumber,
    pub body: LineNumber,
}

// The record of a line.
pub(crate) fn record_at(records: &[Record], line: LineNumber) -> Option<Record>
    ensures { result ≡ record_at records.now line }
{
    let index = line.checked_sub(1)?;
    records.get(index as usize).copied()
}

// The procedure of a line.
pub(crate) fn routine_at(records: &[Record], line: LineNumber) -> Option<Routine>
    ensures { (s b : ℕ) → ProcedureOf records.now line s b → result ≡ Some (record { system = s; body = b }) }
{
    let record = record_at(records, line)?;
    let Line::Procedure { body, .. } = record.line else {
        return None;
    };
    let system = record.declaration?.line;
    Some(Routine { system, body })
}

impl<'r, 'a, S: Store> Scene<'r, 'a, S> {
    // What the levels around bind the name of a declaration to.
    fn bound(&self, name: Declaration) -> Option<Stand>
        ensures { BoundIs self.now.records.now self.now.frames.now self.now.level name result }
    {
        let mut at = self.level;
        while at < self.frames.len() {
            let frame = self.frames[at];
            if let Some(stand) = frame.bound(name) {
                return Some(stand);
            }
            if frame.outer >= at {
                return None;
            }
            at = frame.outer;
        }
        None
    }

    // What the name of a declaration stands for.
    fn stand(&self, name: Declaration) -> Option<Stand>
        ensures { StandIs self.now.records.now self.now.frames.now self.now.level name result }
    {
        match name.role {
            Role::GlobalSimple { cell } => Some(Stand::Cell(cell as usize)),
            Role::GlobalArray { first, length } => Some(Stand::Cells { first, length }),
            _ => self.bound(name),
        }
    }

    // The same where there may be none.
    pub(crate) fn named(&self, name: Option<Declaration>) -> Option<Stand>
        ensures { (d : Told) → name ≡ Some d → StandIs self.now.records.now self.now.frames.now self.now.level d result }
    {
        self.stand(name?)
    }

    // The innermost level around that is for the system of a line.
    pub(crate) fn system(&self, line: LineNumber) -> Option<usize>
        ensures { SystemIs self.now.records.now self.now.frames.now self.now.level line result }
    {
        let mut at = self.level;
        while at < self.frames.len() {
            let frame = self.frames[at];
            if frame.is_system(line) {
                return Some(at);
            }
            if frame.outer >= at {
                return None;
            }
            at = frame.outer;
        }
        None
    }
}
