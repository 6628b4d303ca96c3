// A run: statements begun one after another, as many as are allowed.
ghost use Rattle.std.specs.Prelude.{◌≡◌, ◌≤◌, List, [], length, ℤ};
ghost use Rattle.lines.specs.declared.records.Record.{Record as Held};
ghost use Rattle.script.specs.Names.{Names};
ghost use Rattle.script.specs.Apart.{globals_of};
ghost use Rattle.acceptance.specs.Sheet.{lines_of};
ghost use Rattle.acceptance.specs.Scripts.{Accepted};
ghost use Rattle.rule.specs.Closing.{first_items, program_of};
ghost use Rattle.rule.specs.Machine.{Item};
ghost use Rattle.engine.specs.Working.{OfKind};
ghost use Rattle.engine.specs.Running.{Holds, Steps, CameTo, StandsFor, left_of, globals_in, machine_after};

use crate::frame::Frame;
use crate::levels::{Engine, LEVELS};
use crate::scene::Run;
use acceptance::scripts::Script;
use faults::Fault;
use kinds::NumberKind;
use lines::records::LineNumber;
use stores::Store;

// What a run has come to.
#[derive(Clone, Copy, PartialEq, Eq, Debug)]
pub enum State {
    // something is left to do
    Running,
    Finished,
    // a statement's fault, with its line
    Faulted { fault: Fault, line: LineNumber },
}

// How many statements were begun, and what the run has come to.
#[derive(Clone, Copy, PartialEq, Eq, Debug)]
pub struct Progress {
    pub begun: u32,
    pub state: State,
}

impl Engine {
    // An engine that has nothing to do.
    pub fn at_rest() -> Engine
        ensures { (rs : List Held) → StandsFor rs result [] }
    {
        Engine {
            frames: [Frame::BLANK; LEVELS],
            height: 0,
        }
    }

    // Starts a run of a script: the whole of it, by its last line, at level 0 with so many cells in use for the globals.
    pub fn start(&mut self, last_line: LineNumber, used: u32)
        ensures { (low high : ℤ) (rs : List Held) (accepted : Accepted low high rs) → length rs ≡ last_line → (globals_of (lines_of rs)).taken ≡ used
            → StandsFor rs self.new (first_items (program_of (lines_of rs) (accepted.script).text)) }
    {
        self.frames[0] = Frame {
            used,
            rest: Some(last_line),
            ..Frame::BLANK
        };
        self.height = 1;
    }

    // Begins the next statement; after a fault nothing is left to do.
    fn step<K: NumberKind, S: Store>(&mut self, run: &Run<'_>, store: &mut S) -> State
        ensures stepped { (G : Names) (ps : List Item) → OfKind K.kind run.now.records.now → Holds G run.now.records.now self.old ps
            → Steps K.kind run.now.size G run.now.records.now self.new result (S.words store.new) (S.words store.old) ps }
        ensures lent { S.lent store.new ≡ S.lent store.old }
    {
        let Some(at) = self.next() else {
            return State::Finished;
        };
        match self.begin::<K, S>(run, store, at) {
            Ok(()) => State::Running,
            Err(fault) => {
                self.leave(0);
                State::Faulted {
                    fault,
                    line: at.line,
                }
            }
        }
    }

    // Whether something is left to do.
    fn left(&self) -> State
        ensures { (G : Names) (rs : List Held) (ps : List Item) → Holds G rs self.now ps → result ≡ left_of ps }
    {
        match self.next() {
            Some(_) => State::Running,
            None => State::Finished,
        }
    }

    // Goes on with a run of the script by at most so many statements.
    pub fn run<K: NumberKind, S: Store>(
        &mut self,
        script: &Script<'_, K>,
        store: &mut S,
        size: u32,
        allowance: u32,
    ) -> Progress
        ensures came { (ps : List Item) → StandsFor script.now self.old ps
            → CameTo (globals_in script.now) script.now self.new allowance result.begun result.state (S.words store.new)
            (machine_after K.kind size (globals_in script.now) allowance ps (S.words store.old)) }
        ensures begun { result.begun ≤ allowance }
        ensures lent { S.lent store.new ≡ S.lent store.old }
    {
        let run = Run {
            records: script.records(),
            size,
        };
        for begun in 0..allowance {
            let state = self.step::<K, S>(&run, store);
            match state {
                State::Running => {}
                State::Finished => return Progress { begun, state },
                State::Faulted { .. } => return Progress {
                    begun: begun + 1,
                    state,
                },
            }
        }
        Progress {
            begun: allowance,
            state: self.left(),
        }
    }
}
