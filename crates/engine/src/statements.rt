// Beginning a statement, a method for each sort. After a fault the engine has nothing left to do.
ghost use Rattle.std.specs.Prelude.{◌≡◌, ℕ, ◌+◌, ◌<◌, length, List, IfOk, slice_index_or, slice_set};
ghost use Rattle.kinds.specs.Arithmetic.{Arithmetic};
ghost use Rattle.lines.specs.declared.records.Line.TheVariants as Says;
ghost use Rattle.standing.specs.Records.{declaration_in, record_at as told_at};
ghost use Rattle.rule.specs.Handed.{handed_room};
ghost use Rattle.rule.specs.Machine.{Moved, deeper as deeper_as};
ghost use Rattle.rule.specs.Rewriting.{cleared};
ghost use Rattle.engine.specs.Levels.{blank};
ghost use Rattle.engine.specs.Beginning.{answered, done, entered, with_used, pushed, Begins, Begun, Invokes};

use crate::frame::{Binding, Frame};
use crate::levels::{Engine, LEVELS, Next};
use crate::scene::{Run, Scene, record_at, routine_at};
use crate::values::taken;
use faults::Fault;
use kinds::NumberKind;
use lines::records::{Declaration, Line, LineNumber, Record};
use stores::{NoSuchCell, Store};

// The cells in use one level deeper, with some more.
fn deeper(level: usize, used: u32, more: u16, size: u32) -> Result<u32, Fault>
    ensures level { IfOk result (λ total. (level < 512) × (total ≡ used + more)) }
    ensures moved { (l : ℕ) (σ : List ℕ) (m : Moved) → deeper_as size l level used more σ m ≡ entered (done result) l σ m }
{
    if level >= LEVELS - 1 {
        return Err(Fault::TooDeep);
    }
    match used.checked_add(more as u32) {
        Some(total) if total <= size => Ok(total),
        _ => Err(Fault::NoCells),
    }
}

// Puts a word into a cell.
fn put<S: Store>(store: &mut S, cell: usize, word: u32) -> Result<(), Fault>
    ensures answer { result ≡ answered (handed_room (S.words store.old) (cell + 1)) }
    ensures words { S.words store.new ≡ slice_set (S.words store.old) cell word }
    ensures lent { S.lent store.new ≡ S.lent store.old }
{
    match store.put(cell, word) {
        Ok(()) => Ok(()),
        Err(NoSuchCell) => Err(Fault::Refused),
    }
}

// Puts a word into some cells.
fn clear<S: Store>(store: &mut S, first: u32, count: u16, word: u32) -> Result<(), Fault>
    ensures answer { result ≡ answered (handed_room (S.words store.old) (first + count)) }
    ensures words { S.words store.new ≡ cleared count first word (S.words store.old) }
    ensures lent { S.lent store.new ≡ S.lent store.old }
{
    for i in 0..count {
        // a put that is refused changes nothing, and is told below
        let _ = store.put(first as usize + i as usize, word);
    }
    if first as usize + count as usize <= store.size() {
        Ok(())
    } else {
        Err(Fault::Refused)
    }
}

impl Engine {
    // Leaves a statement, or none, to be begun at a level, and enters the next with some more cells in use.
    fn enter(
        &mut self,
        size: u32,
        level: usize,
        rest: Option<LineNumber>,
        more: u16,
        frame: Frame,
    ) -> Result<(), Fault>
        requires { level < 513 }
        ensures moved { (l : ℕ) (σ : List ℕ) (m : Moved) → deeper_as size l level (slice_index_or self.old.frames level blank).used more σ m ≡ entered result l σ m }
        ensures frames { IfOk result (λ u. (level + 1 < length self.old.frames) × (self.new.height ≡ level + 2)
            × (self.new.frames ≡ pushed self.old.frames level rest (with_used frame ((slice_index_or self.old.frames level blank).used + more)))) }
    {
        let used = deeper(level, self.used(level), more, size)?;
        self.push(level, rest, Frame { used, ..frame });
        Ok(())
    }

    // What stands at a place of the text.
    fn scene<'r, 'a, S: Store>(
        &'a self,
        run: &Run<'r>,
        store: &'a S,
        level: usize,
    ) -> Scene<'r, 'a, S>
        ensures records { result.records.now ≡ run.now.records.now }
        ensures frames { result.frames.now ≡ self.now.frames }
        ensures level { result.level ≡ level }
        ensures store { result.store.now ≡ store.now }
    {
        Scene {
            records: run.records,
            frames: &self.frames,
            level,
            store,
        }
    }

    fn assign<K: NumberKind, S: Store>(
        &mut self,
        run: &Run<'_>,
        store: &mut S,
        at: Next,
        variable: LineNumber,
        value: LineNumber,
    ) -> Result<(), Fault>
        requires { at.level < 513 }
        ensures begun { Begins K.kind run.now self.old self.new at (S.words store.old) (S.words store.new) result (Says.Assignment variable value) }
        ensures lent { S.lent store.new ≡ S.lent store.old }
    {
        let scene = self.scene(run, store, at.level);
        let word = scene.value::<K>(at.line, value)?;
        let cell = scene.place::<K>(at.line, variable)?;
        self.leave(at.level);
        put(store, cell, word)
    }

    fn sequence(
        &mut self,
        run: &Run<'_>,
        at: Next,
        first: LineNumber,
        second: LineNumber,
    ) -> Result<(), Fault>
        requires { at.level < 513 }
        ensures { (K : Arithmetic) (σ : List ℕ) → Begins K run.now self.old self.new at σ σ result (Says.Sequence first second) }
    {
        let frame = Frame {
            line: at.line,
            binding: Binding::Sequel,
            outer: self.binder(at.level),
            rest: Some(first),
            ..Frame::BLANK
        };
        self.enter(run.size, at.level, Some(second), 0, frame)
    }

    fn branch<K: NumberKind, S: Store>(
        &mut self,
        run: &Run<'_>,
        store: &S,
        at: Next,
        condition: LineNumber,
        chosen: LineNumber,
        otherwise: LineNumber,
    ) -> Result<(), Fault>
        requires { at.level < 513 }
        ensures { Begins K.kind run.now self.old self.new at (S.words store.now) (S.words store.now) result (Says.Branch condition chosen otherwise) }
    {
        let scene = self.scene(run, store, at.level);
        let holds = scene.holds::<K>(at.line, condition)?;
        self.stay(at.level, taken(holds, chosen, otherwise));
        Ok(())
    }

    fn new_simple<K: NumberKind, S: Store>(
        &mut self,
        run: &Run<'_>,
        store: &mut S,
        at: Next,
        body: LineNumber,
    ) -> Result<(), Fault>
        requires { at.level < 513 }
        ensures begun { (name : ℕ) → Begins K.kind run.now self.old self.new at (S.words store.old) (S.words store.new) result (Says.NewSimple name body) }
        ensures lent { S.lent store.new ≡ S.lent store.old }
    {
        let cell = self.used(at.level);
        let frame = Frame {
            line: at.line,
            binding: Binding::Simple { cell },
            outer: self.binder(at.level),
            rest: Some(body),
            ..Frame::BLANK
        };
        self.enter(run.size, at.level, None, 1, frame)?;
        put(store, cell as usize, K::zero())
    }

    fn new_array<K: NumberKind, S: Store>(
        &mut self,
        run: &Run<'_>,
        store: &mut S,
        at: Next,
        length: u16,
        body: LineNumber,
    ) -> Result<(), Fault>
        requires { at.level < 513 }
        ensures begun { (name : ℕ) → Begins K.kind run.now self.old self.new at (S.words store.old) (S.words store.new) result (Says.NewArray name length body) }
        ensures lent { S.lent store.new ≡ S.lent store.old }
    {
        let first = self.used(at.level);
        let frame = Frame {
            line: at.line,
            binding: Binding::Array { first, length },
            outer: self.binder(at.level),
            rest: Some(body),
            ..Frame::BLANK
        };
        self.enter(run.size, at.level, None, length, frame)?;
        clear(store, first, length, K::zero())
    }

    fn system(&mut self, run: &Run<'_>, at: Next, body: LineNumber) -> Result<(), Fault>
        requires { at.level < 513 }
        ensures { (K : Arithmetic) (σ : List ℕ) (declarations : ℕ) → Begins K run.now self.old self.new at σ σ result (Says.System declarations body) }
    {
        let frame = Frame {
            line: at.line,
            binding: Binding::System,
            outer: self.binder(at.level),
            rest: Some(body),
            ..Frame::BLANK
        };
        self.enter(run.size, at.level, None, 0, frame)
    }

    // A call of the procedure of a line, with the word of its value formal and the cell of its variable formal.
    fn invoke<S: Store>(
        &mut self,
        run: &Run<'_>,
        store: &mut S,
        at: Next,
        procedure: LineNumber,
        word: u32,
        variable: usize,
    ) -> Result<(), Fault>
        requires { at.level < 513 }
        ensures begun { (K : Arithmetic) → Invokes K run.now self.old self.new at (S.words store.old) (S.words store.new) result procedure word variable }
        ensures lent { S.lent store.new ≡ S.lent store.old }
    {
        let Some(routine) = routine_at(run.records, procedure) else {
            return Err(Fault::Refused);
        };
        let scene = self.scene(run, store, at.level);
        let Some(outer) = scene.system(routine.system) else {
            return Err(Fault::Refused);
        };
        let value = self.used(at.level);
        let frame = Frame {
            line: procedure,
            binding: Binding::Call { value, variable },
            outer,
            rest: Some(routine.body),
            ..Frame::BLANK
        };
        self.enter(run.size, at.level, None, 1, frame)?;
        put(store, value as usize, word)
    }

    fn call<K: NumberKind, S: Store>(
        &mut self,
        run: &Run<'_>,
        store: &mut S,
        at: Next,
        name: Option<Declaration>,
        value: LineNumber,
        variable: LineNumber,
    ) -> Result<(), Fault>
        requires { at.level < 513 }
        ensures begun { (procedure : ℕ) → declaration_in (told_at run.now.records.now at.line) ≡ name
            → Begins K.kind run.now self.old self.new at (S.words store.old) (S.words store.new) result (Says.Call procedure value variable) }
        ensures lent { S.lent store.new ≡ S.lent store.old }
    {
        let Some(procedure) = name else {
            return Err(Fault::Refused);
        };
        let scene = self.scene(run, store, at.level);
        let word = scene.value::<K>(at.line, value)?;
        let cell = scene.place::<K>(at.line, variable)?;
        self.invoke(run, store, at, procedure.line, word, cell)
    }

    // Begins the statement at a place.
    pub(crate) fn begin<K: NumberKind, S: Store>(
        &mut self,
        run: &Run<'_>,
        store: &mut S,
        at: Next,
    ) -> Result<(), Fault>
        requires { at.level < 513 }
        ensures begun { Begun K.kind run.now self.old self.new at (S.words store.old) (S.words store.new) result }
        ensures lent { S.lent store.new ≡ S.lent store.old }
    {
        let Some(record) = record_at(run.records, at.line) else {
            return Err(Fault::Refused);
        };
        match record.line {
            Line::Assignment { variable, value } => self.assign::<K, S>(
                run, store, at, variable, value,
            ),
            Line::Sequence { first, second } => self.sequence(run, at, first, second),
            Line::Branch {
                condition,
                chosen,
                otherwise,
            } => self.branch::<K, S>(run, store, at, condition, chosen, otherwise),
            Line::Call {
                value,
                variable,
                ..
            } => self.call::<K, S>(run, store, at, record.declaration, value, variable),
            Line::NewSimple { body, .. } => self.new_simple::<K, S>(run, store, at, body),
            Line::NewArray { length, body, .. } => self.new_array::<K, S>(
                run, store, at, length, body,
            ),
            Line::System { body, .. } => self.system(run, at, body),
            _ => Err(Fault::Refused),
        }
    }
}
