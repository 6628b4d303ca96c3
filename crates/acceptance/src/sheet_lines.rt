// The lines of a sheet by their numbers.
ghost use Rattle.std.specs.Prelude.{◌≡◌, ◌≤◌, suc, List, length};
ghost use Rattle.lines.specs.declared.records.Line.{Line};
ghost use Rattle.script.specs.Tree.{line};
ghost use Rattle.script.specs.Apart.{past_globals};
ghost use Rattle.acceptance.specs.Sheet.{lines_of};
ghost use Rattle.acceptance.specs.Scopes.{HasGlobals};

use crate::classes::class_of;
use crate::globals::Globals;
use lines::records::{Line, Record};
use std::marker::Model;
use std::ops::Range;

// The records of a sheet and its globals, seen as its lines: not more than a sheet may have.
#[derive(Drop)]
pub(crate) struct Sheet<'a> {
    records: &'a [Record],
    globals: &'a Globals,
}

impl<'a> Model for Sheet<'a> {
    ghost Value = { List Line };

    ghost view = { λ s. lines_of s.records.now };

    ghost invariant = { λ s. (length s.records.now ≤ 2048) × HasGlobals (lines_of s.records.now) s.globals.now };
}

impl<'a> Sheet<'a> {
    pub(crate) fn new(records: &'a [Record], globals: &'a Globals) -> Sheet<'a>
        requires few { length records.now ≤ 2048 }
        requires globals { HasGlobals (lines_of records.now) globals.now }
        ensures { result ≡ lines_of records.now }
    {
        Sheet { records, globals }
    }

    pub(crate) fn globals(&self) -> &'a Globals
        ensures { HasGlobals self.now result.now }
    {
        self.globals
    }

    pub(crate) fn len(&self) -> usize
        ensures is { result ≡ length self.now }
        ensures few { result ≤ 2048 }
    {
        self.records.len()
    }

    // The numbers of its lines, behind 0: an empty sheet is refused at line 0, by the same tests as the others.
    pub(crate) fn numbers(&self) -> Range<usize>
        ensures { result ≡ record { start = 0; end = suc (length self.now) } }
    {
        0..self.records.len() + 1
    }

    // Line n, counted from 1; at 0 and behind the last line, a line that names nothing and that none can name. No `Option`: each
    // test of a line has its own answer for the lines that it is not about, and these are two more of them.
    pub(crate) fn line(&self, n: usize) -> Line
        ensures { result ≡ line self.now n }
    {
        if n > 0 && n <= self.records.len() {
            self.records[n - 1].line
        } else {
            Line::Global { name: 0, length: 0 }
        }
    }

    // The number of the first line that is no global: 1 where there is no global, one past the last where all are.
    pub(crate) fn past_globals(&self) -> usize
        ensures { result ≡ past_globals self.now }
    {
        let is_other = |record: &Record| class_of(record.line).is_some();
        let globals = self.records.iter().position(is_other);
        globals.unwrap_or(self.records.len()) + 1
    }
}
