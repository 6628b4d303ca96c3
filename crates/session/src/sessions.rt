// A script's session over a store: opened, and then at rest between runs. The store is handed to each call.
ghost use Rattle.std.specs.Prelude.{◌≡◌, ℕ, List, [], Result, length};
ghost use Rattle.text.specs.declared.refusals.Refusal.{Refusal};
ghost use Rattle.lines.specs.declared.records.Record.{Record};
ghost use Rattle.acceptance.specs.Scripts.{Accepted};
ghost use Rattle.acceptance.specs.Sheet.{lines_of};
ghost use Rattle.calls.specs.Openings.{Opens};
ghost use Rattle.calls.specs.declared.causes.SessionCause.{SessionCause};
ghost use Rattle.session.specs.Sessions.{Held, none, after_opening, after_post, cell_in, post_into, reading_of};
ghost use Rattle.calls.specs.declared.asked.Call.TheVariants.{Open, Post, Reading};
ghost use Rattle.session.specs.Promise.{Keeps, StandsAfter, to_open, to_post, to_reading};
ghost use Rattle.session.specs.States.{held};

use crate::opening::first_unlawful;
use acceptance::scripts::Script;
use calls::asked::GlobalCell;
use calls::causes::SessionCause;
use engine::Engine;
use faults::Ending;
use kinds::NumberKind;
use lines::records::Role;
use std::marker::Model;
use stores::Store;
use text::refusals::Refusal;

// What stays of a session from its opening on, and how many runs were begun.
#[derive(Drop)]
pub(crate) struct Opened<'s, 'r, K: NumberKind> {
    pub script: &'s Script<'r, K>,
    // that of the store at the opening: a run may take no cell past it
    pub size: u32,
    // how many runs were begun, which is the last one's number
    pub runs: u32,
}

#[derive(Clone, Copy, PartialEq, Eq, Debug)]
pub(crate) enum State {
    AtRest,
    // in a run that has begun so many statements, with something left to do
    Running { count: u32 },
    // with a run that is over
    Over { ending: Ending, count: u32 },
}

/// A caller's place for a session.
#[derive(Drop)]
pub struct Session<'s, 'r, K: NumberKind> {
    // none in a place that is unopened, or whose opening was refused
    pub(crate) opened: Option<Opened<'s, 'r, K>>,
    pub(crate) state: State,
    // the levels of a run
    pub(crate) engine: Engine,
}

impl<'s, 'r, K: NumberKind> Model for Session<'s, 'r, K> {
    ghost Value = { Held };

    ghost view = { λ s. held s.opened s.state s.engine };
}

impl<'s, 'r, K: NumberKind> Session<'s, 'r, K> {
    /// A place that holds no session yet. With any store it stands as before any call.
    pub fn unopened() -> Session<'s, 'r, K>
        ensures holds { result ≡ none }
        ensures promise { (rs : List Record) (a : Accepted K.kind.least K.kind.most rs) (words : List ℕ) → StandsAfter K.kind rs a (length words) words [] result words }
    {
        Session {
            opened: None,
            state: State::AtRest,
            engine: Engine::at_rest(),
        }
    }

    /// Opens a script over a store. The place then holds the session, or none where the opening is refused, whatever it held: an open run ends so, and
    /// the session's runs are counted from 1 again.
    ///
    /// # Errors
    ///
    /// 11 where the store has not as many cells as the globals take; 12, with its line, for the first global with a word that is unlawful for the number kind.
    pub fn open<S: Store>(
        &mut self,
        script: &'s Script<'r, K>,
        store: &S,
    ) -> Result<(), Refusal<SessionCause>>
        ensures accepted { Accepted K.kind.least K.kind.most script.now }
        ensures answer { Opens K.kind (lines_of script.now) (S.Store.words store.now) result }
        ensures only { (s : Result (Unit {0}) (Refusal SessionCause)) → Opens K.kind (lines_of script.now) (S.Store.words store.now) s → s ≡ result }
        ensures session { self.new ≡ after_opening script.now (S.Store.words store.now) result }
        ensures promise { (held : Held) → Keeps K.kind script.now Open held (S.Store.words store.now) (to_open result) self.new (S.Store.words store.now) }
    {
        self.opened = None;
        self.state = State::AtRest;
        let records = script.records();
        if store.size() < script.cells() as usize {
            return Err(Refusal::without_line(SessionCause::StoreTooSmall));
        }
        if let Some(line) = first_unlawful::<K, S>(records, store) {
            return Err(Refusal {
                cause: SessionCause::UnlawfulGlobal,
                line,
            });
        }
        self.opened = Some(Opened {
            script,
            size: store.size() as u32,
            runs: 0,
        });
        Ok(())
    }

    // The cell of a global.
    fn cell(&self, global: GlobalCell) -> Result<usize, Refusal<SessionCause>>
        ensures { result ≡ cell_in self.now global }
    {
        let (Some(opened), State::AtRest) = (&self.opened, self.state) else {
            return Err(Refusal::without_line(SessionCause::NotAtRest));
        };
        let no_such_global = Refusal::without_line(SessionCause::NoSuchGlobal);
        let role = opened
            .script
            .global(global.sort, global.name)
            .ok_or(no_such_global)?;
        match role {
            Role::GlobalSimple { cell } if global.index == 0 => Ok(cell as usize),
            Role::GlobalArray { first, length } if global.index < length => Ok(
                first as usize + global.index as usize,
            ),
            _ => Err(no_such_global),
        }
    }

    /// Puts a word into a global, between runs.
    ///
    /// # Errors
    ///
    /// 13 where no session is at rest here; 14 where the script has no such global, or the global no such index; 15 where the word is unlawful for the number
    /// kind; 26 where the store refuses the put, as only another store than the opened one can. The store is then as it was.
    pub fn post<S: Store>(
        &self,
        store: &mut S,
        global: GlobalCell,
        word: u32,
    ) -> Result<(), Refusal<SessionCause>>
        ensures answer { result ≡ post_into K.kind (S.Store.words store.old) word (cell_in self.now global) }
        ensures words { S.Store.words store.new ≡ after_post (S.Store.words store.old) (cell_in self.now global) word result }
        ensures promise { (rs : List Record) → Keeps K.kind rs (Post global word) self.now (S.Store.words store.old) (to_post result) self.now (S.Store.words store.new) }
        ensures lent { S.Store.lent store.new ≡ S.Store.lent store.old }
    {
        put_word::<K, S>(store, self.cell(global), word)
    }

    /// The word of a global, between runs.
    ///
    /// # Errors
    ///
    /// 13 and 14 as for a post; 26 where the store refuses the cell or holds an unlawful word there, as only another store than the opened one can.
    pub fn reading<S: Store>(
        &self,
        store: &S,
        global: GlobalCell,
    ) -> Result<u32, Refusal<SessionCause>>
        ensures answer { result ≡ reading_of K.kind (S.Store.words store.now) (cell_in self.now global) }
        ensures promise { (rs : List Record) → Keeps K.kind rs (Reading global) self.now (S.Store.words store.now) (to_reading result) self.now (S.Store.words store.now) }
    {
        word_of::<K, S>(store, self.cell(global))
    }
}

// Puts a word into the cell that was found, if it was.
fn put_word<K: NumberKind, S: Store>(
    store: &mut S,
    cell: Result<usize, Refusal<SessionCause>>,
    word: u32,
) -> Result<(), Refusal<SessionCause>>
    ensures answer { result ≡ post_into K.kind (S.Store.words store.old) word cell }
    ensures words { S.Store.words store.new ≡ after_post (S.Store.words store.old) cell word result }
    ensures lent { S.Store.lent store.new ≡ S.Store.lent store.old }
{
    let cell = cell?;
    if !K::is_lawful(word) {
        return Err(Refusal::without_line(SessionCause::UnlawfulWord));
    }
    let Ok(()) = store.put(cell, word) else {
        return Err(Refusal::without_line(SessionCause::StoreFails));
    };
    Ok(())
}

// The word of the cell that was found, if it was.
fn word_of<K: NumberKind, S: Store>(
    store: &S,
    cell: Result<usize, Refusal<SessionCause>>,
) -> Result<u32, Refusal<SessionCause>>
    ensures { result ≡ reading_of K.kind (S.Store.words store.now) cell }
{
    match store.load(cell?) {
        Some(word) if K::is_lawful(word) => Ok(word),
        _ => Err(Refusal::without_line(SessionCause::StoreFails)),
    }
}
