// The globals of a sheet, as declarations with their cells.
ghost use Rattle.std.specs.Prelude.{◌≡◌, ◌≤◌, map, length, List};
ghost use Rattle.lines.specs.declared.records.Line.{Line};
ghost use Rattle.script.specs.Apart.{globals_of, heads};
ghost use Rattle.acceptance.specs.Sheet.{lines_of};
ghost use Rattle.acceptance.specs.Scopes.{cells_of, global_declared, global_entries, HasGlobals, sought_for};

use crate::declared::{ArrayDeclared, Named, SimpleDeclared, Sought, search};
use arrayvec::ArrayVec;
use lines::records::{Declaration, Line, LineNumber, Name, Record};
use sheet::reader::MOST_LINES;

/// The two sorts of global: a global is found by its sort and its name, since a simple variable and an array may have the same name.
#[derive(Clone, Copy, PartialEq, Eq, Debug)]
pub enum GlobalSort {
    Simple,
    Array,
}

impl GlobalSort {
    // The sort of name that is looked up.
    pub(crate) fn sought(self) -> Sought
        ensures { result ≡ sought_for self }
    {
        match self {
            GlobalSort::Simple => Sought::Simple,
            GlobalSort::Array => Sought::Array,
        }
    }
}

/// How many cells a global of that length takes: one where the length is 0, which is that of a simple variable, and else as many as the length.
pub fn cells_of(length: u16) -> u32
    ensures is { result ≡ cells_of length }
    ensures few { result ≤ 65535 }
{
    if length == 0 { 1 } else { length as u32 }
}

// How many cells the globals take together.
pub(crate) fn cells_taken(records: &[Record]) -> u32
    requires { length records.now ≤ 2048 }
    ensures { result ≡ (globals_of (lines_of records.now)).taken }
{
    let mut taken: u32 = 0;
    for record in records {
        let Line::Global { length, .. } = record.line else {
            return taken;
        };
        taken += cells_of(length);
    }
    taken
}

// The globals of one sort, in line order.
fn list<D: Named + Copy + Default>(records: &[Record]) -> ArrayVec<D, MOST_LINES>
    requires { length records.now ≤ 2048 }
    ensures { map D.Named.told result.items ≡ global_entries D.Named.sort 1 0 (heads (lines_of records.now)) }
{
    let mut listed = ArrayVec::new();
    let mut cell: u32 = 0;
    for (index, record) in records.iter().enumerate() {
        let Line::Global { name, length } = record.line else {
            return listed;
        };
        let line = (index + 1) as LineNumber;
        if let Some(declared) = D::of_global(line, cell, name, length) {
            listed.push(declared);
        }
        cell += cells_of(length);
    }
    listed
}

// The globals of a sheet by their sorts; procedures are no globals.
#[derive(Drop)]
pub(crate) struct Globals {
    simples: ArrayVec<SimpleDeclared, MOST_LINES>,
    arrays: ArrayVec<ArrayDeclared, MOST_LINES>,
}

impl Globals {
    pub(crate) fn of(records: &[Record]) -> Globals
        requires { length records.now ≤ 2048 }
        ensures { HasGlobals (lines_of records.now) result }
    {
        Globals {
            simples: list(records),
            arrays: list(records),
        }
    }

    // The global of that name.
    pub(crate) fn find(&self, sought: Sought, name: Name) -> Option<Declaration>
        ensures { (ls : List Line) → HasGlobals ls self.now → result ≡ global_declared sought name ls }
    {
        match sought {
            Sought::Simple => search(self.simples.as_slice(), name),
            Sought::Array => search(self.arrays.as_slice(), name),
            Sought::Procedure => None,
        }
    }
}
