// The engine: the levels of a run, and what is still to be begun at each.
ghost use Rattle.std.specs.Prelude.{◌≡◌, ◌+◌, ◌<◌, ◌≤◌, List, IfSome, Some, slice_index_or, slice_set};
ghost use Rattle.lines.specs.declared.records.Record.{Record};
ghost use Rattle.script.specs.Names.{Names};
ghost use Rattle.rule.specs.Machine.{Item};
ghost use Rattle.engine.specs.Levels.{binder, blank, with_rest, Waiting, Tops};

use crate::frame::{Binding, Frame};
use lines::records::LineNumber;

// The levels are from that of the whole script, 0, to 512.
pub(crate) const LEVELS: usize = 513;

// The levels of a run; those from the height on are not in use.
#[derive(Drop)]
pub struct Engine {
    pub(crate) frames: [Frame; LEVELS],
    pub(crate) height: usize,
    ghost fits: { height ≤ 513 },
}

// The statement that is to be begun next, and its level.
#[derive(Clone, Copy)]
pub(crate) struct Next {
    pub level: usize,
    pub line: LineNumber,
}

impl Engine {
    // The cells in use at a level.
    pub(crate) fn used(&self, level: usize) -> u32
        requires { level < 513 }
        ensures { result ≡ (slice_index_or self.now.frames level blank).used }
    {
        self.frames[level].used
    }

    // The innermost level that has bound something at a level: so the search for a name passes no level that bound nothing.
    pub(crate) fn binder(&self, level: usize) -> usize
        requires { level < 513 }
        ensures { result ≡ binder (slice_index_or self.now.frames level blank) level }
    {
        let frame = self.frames[level];
        match frame.binding {
            Binding::Sequel => frame.outer,
            _ => level,
        }
    }

    // Leaves a statement, or none, to be begun at a level, and enters the next.
    pub(crate) fn push(&mut self, level: usize, rest: Option<LineNumber>, frame: Frame)
        requires { level < 512 }
        ensures frames { self.new.frames ≡ slice_set (slice_set self.old.frames level (with_rest (slice_index_or self.old.frames level blank) rest)) (level + 1) frame }
        ensures height { self.new.height ≡ level + 2 }
    {
        self.frames[level].rest = rest;
        self.frames[level + 1] = frame;
        self.height = level + 2;
    }

    // Leaves a statement to be begun at a level.
    pub(crate) fn stay(&mut self, level: usize, rest: LineNumber)
        requires { level < 513 }
        ensures frames { self.new.frames ≡ slice_set self.old.frames level (with_rest (slice_index_or self.old.frames level blank) (Some rest)) }
        ensures height { self.new.height ≡ level + 1 }
    {
        self.frames[level].rest = Some(rest);
        self.height = level + 1;
    }

    // Leaves nothing to be begun from a level on.
    pub(crate) fn leave(&mut self, level: usize)
        requires { level < 513 }
        ensures frames { self.new.frames ≡ self.old.frames }
        ensures height { self.new.height ≡ level }
    {
        self.height = level;
    }

    // What is to be begun next.
    pub(crate) fn next(&self) -> Option<Next>
        ensures stands { (G : Names) (rs : List Record) (ps : List Item) → Waiting G rs self.now.frames self.now.height ps → Tops G rs self.now.frames result ps }
        ensures level { IfSome result (λ n. n.level < 513) }
    {
        for level in (0..self.height).rev() {
            if let Some(line) = self.frames[level].rest {
                return Some(Next { level, line });
            }
        }
        None
    }
}
