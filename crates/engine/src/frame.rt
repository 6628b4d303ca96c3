// The levels of a run: what entering each has bound.
ghost use Rattle.std.specs.Prelude.{◌≡◌, ◌==◌};
ghost use Rattle.engine.specs.Frames.{bound, is_system};

use lines::records::{Declaration, LineNumber, Role};

// What entering a level bound.
#[derive(Clone, Copy)]
pub(crate) enum Binding {
    // nothing: the whole script, around which only the globals are
    Script,
    // nothing: the first of two statements, the second of which waits at the level around
    Sequel,
    Simple { cell: u32 },
    Array { first: u32, length: u16 },
    // the procedures of a system
    System,
    // the cells of a procedure's two formals
    Call { value: u32, variable: usize },
}

// A level.
#[derive(Clone, Copy)]
pub(crate) struct Frame {
    // the line that bound it
    pub line: LineNumber,
    pub binding: Binding,
    // the level around it in the text: the innermost that bound something
    pub outer: usize,
    // the cells in use there
    pub used: u32,
    // the statement that is still to be begun there
    pub rest: Option<LineNumber>,
}

// What a variable's or an array's name stands for.
#[derive(Clone, Copy)]
pub(crate) enum Stand {
    Cell(usize),
    Cells { first: u32, length: u16 },
}

impl Frame {
    // A level before anything is bound.
    pub(crate) const BLANK: Frame = Frame {
        line: 0,
        binding: Binding::Script,
        outer: 0,
        used: 0,
        rest: None,
    };

    // What it binds the name of a declaration to.
    pub(crate) fn bound(self, name: Declaration) -> Option<Stand>
        ensures { result ≡ bound self.binding self.line name.line name.role }
    {
        if self.line != name.line {
            return None;
        }
        match (self.binding, name.role) {
            (Binding::Simple { cell }, Role::Declared) => Some(Stand::Cell(cell as usize)),
            (Binding::Array { first, length }, Role::Declared) => {
                Some(Stand::Cells { first, length })
            }
            (Binding::Call { value, .. }, Role::ValueFormal) => Some(Stand::Cell(value as usize)),
            (Binding::Call { variable, .. }, Role::VariableFormal) => Some(Stand::Cell(variable)),
            _ => None,
        }
    }

    // Whether it is for the system of a line.
    pub(crate) fn is_system(self, line: LineNumber) -> bool
        ensures { result ≡ is_system self.binding (self.line == line) }
    {
        match self.binding {
            Binding::System => self.line == line,
            _ => false,
        }
    }
}
