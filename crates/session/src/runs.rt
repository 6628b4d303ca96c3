// The runs of a session: begin, grant and close.
ghost use Rattle.std.specs.Prelude.{◌≡◌, ◌+◌, ◌≤◌, List, Some, None, IfOk, IfErr};
ghost use Rattle.text.specs.Refusals.{without_line};
ghost use Rattle.lines.specs.declared.records.Record.{Record};
ghost use Rattle.calls.specs.declared.causes.SessionCause.{SessionCause};
ghost use Rattle.calls.specs.Answers.{largest};
ghost use Rattle.calls.specs.declared.asked.Call.TheVariants.{Begin, Grant, Close};
ghost use Rattle.session.specs.Promise.{Keeps, to_begin, to_close, to_grant};
ghost use Rattle.session.specs.Runs.{AfterBegin, Granted, after_close, begin_answer, close_answer, grant_refusal, numbered, open_ticket, or_begun, unclosed};

use crate::sessions::{Session, State};
use crate::tickets::{Ticket, Unclosed};
use calls::causes::SessionCause;
use engine::State as Reached;
use faults::Ending;
use kinds::NumberKind;
use lines::records::LineNumber;
use stores::Store;
use text::refusals::Refusal;

/// Whether something is left to do in a run.
#[derive(Clone, Copy, PartialEq, Eq, Debug)]
pub enum RunState {
    Running,
    Over,
}

/// How a run ended, and how many statements it began. The global store is what the globals' cells hold.
#[derive(Clone, Copy, PartialEq, Eq, Debug)]
pub struct Closing {
    pub ending: Ending,
    pub count: u32,
}

impl<'s, 'r, K: NumberKind> Session<'s, 'r, K> {
    /// Begins a run, from the global store as it is. Its ticket has to be handed back by a close.
    ///
    /// # Errors
    ///
    /// 13 where no session is at rest here; 19 where 4,294,967,295 runs were begun. The session is then as it was.
    pub fn begin<S: Store>(&mut self, store: &S) -> Result<Ticket, Refusal<SessionCause>>
        ensures answer { numbered result ≡ begin_answer self.old }
        ensures session { AfterBegin self.old (numbered result) self.new }
        ensures promise { (rs : List Record) → Keeps K.kind rs Begin self.old (S.Store.words store.now) (to_begin (numbered result)) self.new (S.Store.words store.now) }
    {
        let run = self.begin_run()?;
        Ok(Ticket { run })
    }

    // The same, by the run's number.
    pub(crate) fn begin_run(&mut self) -> Result<u32, Refusal<SessionCause>>
        ensures answer { result ≡ begin_answer self.old }
        ensures session { AfterBegin self.old result self.new }
    {
        let Some(opened) = &mut self.opened else {
            return Err(Refusal::without_line(SessionCause::NotAtRest));
        };
        match (self.state, opened.runs.checked_add(1)) {
            (State::AtRest, Some(run)) => {
                opened.runs = run;
                let last = opened.script.records().len() as LineNumber;
                self.engine.start(last, opened.script.cells());
                self.state = State::Running { count: 0 };
                Ok(run)
            }
            (State::AtRest, None) => Err(Refusal::without_line(SessionCause::NoRunLeft)),
            (State::Running { .. } | State::Over { .. }, _) => {
                Err(Refusal::without_line(SessionCause::NotAtRest))
            }
        }
    }

    /// Lets the run begin that many more statements, and tells whether something is left to do. A fault ends the run, and is told by its closing.
    ///
    /// # Errors
    ///
    /// 16 where the ticket is of no open run; 18 where the run is over; 17 for a grant of nothing, or of more than 4,294,967,295 statements with those begun
    /// so far. Session and store are then as they were.
    pub fn grant<S: Store>(
        &mut self,
        store: &mut S,
        ticket: &Ticket,
        count: u32,
    ) -> Result<RunState, Refusal<SessionCause>>
        ensures refused { (c : SessionCause) → grant_refusal self.old ticket.now.run count ≡ Some c → (result ≡ Err (without_line c)) × (self.new ≡ self.old) × (S.Store.words store.new ≡ S.Store.words store.old) }
        ensures granted { grant_refusal self.old ticket.now.run count ≡ None → Granted K.kind self.old count (S.Store.words store.old) result self.new (S.Store.words store.new) }
        ensures open { open_ticket self.new ≡ open_ticket self.old }
        ensures promise { (rs : List Record) → Keeps K.kind rs (Grant ticket.now.run count) self.old (S.Store.words store.old) (to_grant result) self.new (S.Store.words store.new) }
        ensures lent { S.Store.lent store.new ≡ S.Store.lent store.old }
    {
        self.grant_run(store, ticket.run, count)
    }

    // The same, by the run's number.
    pub(crate) fn grant_run<S: Store>(
        &mut self,
        store: &mut S,
        run: u32,
        count: u32,
    ) -> Result<RunState, Refusal<SessionCause>>
        ensures refused { (c : SessionCause) → grant_refusal self.old run count ≡ Some c → (result ≡ Err (without_line c)) × (self.new ≡ self.old) × (S.Store.words store.new ≡ S.Store.words store.old) }
        ensures granted { grant_refusal self.old run count ≡ None → Granted K.kind self.old count (S.Store.words store.old) result self.new (S.Store.words store.new) }
        ensures open { open_ticket self.new ≡ open_ticket self.old }
        ensures lent { S.Store.lent store.new ≡ S.Store.lent store.old }
    {
        let begun = self.grantable(run, count)?;
        let Some(opened) = &self.opened else {
            return Err(Refusal::without_line(SessionCause::NoSuchRun));
        };
        let progress = self.engine.run(opened.script, store, opened.size, count);
        let count = begun + progress.begun;
        let ending = match progress.state {
            Reached::Running => {
                self.state = State::Running { count };
                return Ok(RunState::Running);
            }
            Reached::Finished => Ending::Finished,
            Reached::Faulted { fault, line } => Ending::Fault { fault, line },
        };
        self.state = State::Over { ending, count };
        Ok(RunState::Over)
    }

    // How many statements the run has begun that may be granted so many more.
    fn grantable(&self, run: u32, count: u32) -> Result<u32, Refusal<SessionCause>>
        ensures answer { result ≡ or_begun self.now (grant_refusal self.now run count) }
        ensures most { IfOk result (λ begun. begun + count ≤ largest) }
    {
        let Some(opened) = &self.opened else {
            return Err(Refusal::without_line(SessionCause::NoSuchRun));
        };
        let begun = match (self.state, opened.runs == run) {
            (State::Running { count }, true) => count,
            (State::Over { .. }, true) => return Err(Refusal::without_line(
                SessionCause::RunIsOver,
            )),
            _ => return Err(Refusal::without_line(SessionCause::NoSuchRun)),
        };
        if count == 0 || begun.checked_add(count).is_none() {
            return Err(Refusal::without_line(SessionCause::WrongGrant));
        }
        Ok(begun)
    }

    /// Closes the run, also where something is left to do, and puts the session at rest. The store is only handed over, as to every call: no cell is looked at.
    ///
    /// # Errors
    ///
    /// 16 where the ticket is of no open run: it is handed back, and the session is as it was.
    pub fn close<S: Store>(&mut self, store: &S, ticket: Ticket) -> Result<Closing, Unclosed>
        ensures answer { unclosed result ≡ close_answer self.old ticket.run }
        ensures session { self.new ≡ after_close self.old ticket.run }
        ensures handed_back { IfErr result (λ refused. refused.ticket.run ≡ ticket.run) }
        ensures promise { (rs : List Record) → Keeps K.kind rs (Close ticket.run) self.old (S.Store.words store.now) (to_close (unclosed result)) self.new (S.Store.words store.now) }
    {
        match self.close_run(ticket.run) {
            Ok(closing) => {
                // spent here, and nowhere else
                let Ticket { run: _ } = ticket;
                Ok(closing)
            }
            Err(refusal) => Err(Unclosed { ticket, refusal }),
        }
    }

    // The same, by the run's number.
    pub(crate) fn close_run(&mut self, run: u32) -> Result<Closing, Refusal<SessionCause>>
        ensures answer { result ≡ close_answer self.old run }
        ensures session { self.new ≡ after_close self.old run }
    {
        let Some(opened) = &self.opened else {
            return Err(Refusal::without_line(SessionCause::NoSuchRun));
        };
        let closing = match (self.state, opened.runs == run) {
            (State::Running { count }, true) => Closing {
                ending: Ending::Stopped,
                count,
            },
            (State::Over { ending, count }, true) => Closing { ending, count },
            _ => return Err(Refusal::without_line(SessionCause::NoSuchRun)),
        };
        self.state = State::AtRest;
        Ok(closing)
    }
}
