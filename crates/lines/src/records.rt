// The records of a sheet's lines.
use crate::sorts::{Operator, Relation};

// A name of a variable, an array or a procedure.
pub type Name = u8;

// A line's number, counted from 1; as a field it names an earlier line.
pub type LineNumber = u16;

// What a line says. Fields that hold a line number are called by what that line is to be.
#[derive(Clone, Copy, PartialEq, Eq, Debug)]
pub enum Line {
    // the length is 0 for a simple variable, as on the card: what a script's globals are, and their cells, is defined by that number
    Global {
        name: Name,
        length: u16,
    },
    Constant {
        value: i32,
    },
    Simple {
        name: Name,
    },
    Element {
        name: Name,
        index: LineNumber,
    },
    Operation {
        operator: Operator,
        left: LineNumber,
        right: LineNumber,
    },
    Comparison {
        relation: Relation,
        left: LineNumber,
        right: LineNumber,
    },
    Choice {
        condition: LineNumber,
        chosen: LineNumber,
        otherwise: LineNumber,
    },
    Truth {
        value: bool,
    },
    Negation {
        condition: LineNumber,
    },
    Implication {
        premise: LineNumber,
        conclusion: LineNumber,
    },
    Assignment {
        variable: LineNumber,
        value: LineNumber,
    },
    Sequence {
        first: LineNumber,
        second: LineNumber,
    },
    Branch {
        condition: LineNumber,
        chosen: LineNumber,
        otherwise: LineNumber,
    },
    Call {
        procedure: Name,
        value: LineNumber,
        variable: LineNumber,
    },
    NewSimple {
        name: Name,
        body: LineNumber,
    },
    NewArray {
        name: Name,
        length: u16,
        body: LineNumber,
    },
    System {
        declarations: LineNumber,
        body: LineNumber,
    },
    Procedure {
        name: Name,
        value_formal: Name,
        variable_formal: Name,
        body: LineNumber,
    },
    Join {
        first: LineNumber,
        second: LineNumber,
    },
}

// As what its declaring line declares a name.
#[derive(Clone, Copy, PartialEq, Eq, Debug, Default)]
pub enum Role {
    // a global simple variable, in that cell
    GlobalSimple { cell: u32 },
    // a global array, in as many cells from the first on
    GlobalArray { first: u32, length: u16 },
    // the variable, array or procedure that a v, r or d line is for
    #[default]
    Declared,
    ValueFormal,
    VariableFormal,
}

// The declaration that a name belongs to.
#[derive(Clone, Copy, PartialEq, Eq, Debug, Default)]
pub struct Declaration {
    pub line: LineNumber,
    pub role: Role,
}

// A line of a sheet, and the declaration that its name belongs to: none before the sheet is accepted.
#[derive(Clone, Copy, PartialEq, Eq, Debug)]
pub struct Record {
    pub line: Line,
    pub declaration: Option<Declaration>,
}

impl Record {
    // A place that no line is read into yet.
    pub const BLANK: Record = Record {
        line: Line::Truth { value: false },
        declaration: None,
    };
}
