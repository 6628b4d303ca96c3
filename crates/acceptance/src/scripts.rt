// Scripts: what reading the text of a sheet comes to, and the lines of a script as a type.
ghost use Rattle.std.specs.Prelude.{◌≡◌, List, Some};
ghost use Rattle.script.specs.Apart.{globals_of};
ghost use Rattle.lines.specs.declared.records.Record.{Record};
ghost use Rattle.acceptance.specs.Scopes.{HasGlobals};
ghost use Rattle.acceptance.specs.Scripts.{Accepted, HasScript, global_role, script_meaning_of, script_number_of};
ghost use Rattle.acceptance.specs.Sheet.{lines_of};

use crate::globals::{GlobalSort, Globals, cells_taken};
use crate::verdict::SheetCause;
use kinds::NumberKind;
use lines::records::{Name, Record, Role};
use lines::refusals::Cause;
use std::error::Error;
use std::fmt;
use std::marker::{Model, PhantomData};

mod read;

pub use read::read_script;
use text::refusals::Refusal;

/// Why a text is no script: for one of its lines, or for all of them together.
#[derive(Clone, Copy, PartialEq, Eq, Debug)]
pub enum ScriptCause {
    OfLine(Cause),
    OfSheet(SheetCause),
}

// The number of a refusal for that cause.
impl From<ScriptCause> for u8 {
    ghost from_gives = { λ cause n. n ≡ script_number_of cause };

    fn from(cause: ScriptCause) -> u8 {
        match cause {
            ScriptCause::OfLine(cause) => cause.into(),
            ScriptCause::OfSheet(cause) => cause.into(),
        }
    }
}

impl ScriptCause {
    /// What it means, in plain words.
    pub fn meaning(self) -> &'static str
        ensures { result.now ≡ script_meaning_of self }
    {
        match self {
            ScriptCause::OfLine(cause) => cause.meaning(),
            ScriptCause::OfSheet(cause) => cause.meaning(),
        }
    }
}

impl fmt::Display for ScriptCause {
    // by hand: the text is promised, which a derive does not state
    ghost output = { λ cause. Some (script_meaning_of cause) };

    fn fmt<W: fmt::Write>(&self, f: &mut fmt::Formatter<W>) -> fmt::Result {
        f.write_str(self.meaning())
    }
}

impl Error for ScriptCause {}

/// What came of reading a script for a number kind into lent records. Only `read_script` makes one, so a `Script` is always one that was read, and
/// for its own kind.
#[derive(Drop)]
pub struct Reading<'r, K: NumberKind> {
    lent: &'r mut [Record],
    answer: Result<usize, Refusal<ScriptCause>>,
    kind: PhantomData<K>,
    ghost has_script: { ∥ HasScript K.kind.least K.kind.most answer lent.now ∥₁ },
}

impl<'r, K: NumberKind> Reading<'r, K> {
    ghost use Rattle.acceptance.specs.Readings.{records_of, script_of};

    /// The script that was read.
    ///
    /// # Errors
    ///
    /// The refusal, of one line or of all of them together, where the text is no script for the number kind.
    pub fn script(&self) -> Result<Script<'_, K>, Refusal<ScriptCause>>
        ensures { result ≡ script_of self.now }
    {
        match self.answer {
            Ok(count) => Ok(Script::new(&self.lent[..count])),
            Err(refusal) => Err(refusal),
        }
    }

    /// All the records that were lent, as the reading left them, also at a refusal.
    pub fn records(&self) -> &[Record]
        ensures { result.now ≡ records_of self.now }
    {
        self.lent
    }
}

/// The lines of a script for a number kind, which is what a session opens, and its globals, listed once. A `Reading` gives it.
#[derive(Drop)]
pub struct Script<'r, K: NumberKind> {
    records: &'r [Record],
    globals: Globals,
    kind: PhantomData<K>,
}

impl<'r, K: NumberKind> Model for Script<'r, K> {
    ghost Value = { List Record };

    ghost view = { λ s. s.records.now };

    ghost invariant = { λ s. Accepted K.kind.least K.kind.most s.records.now × HasGlobals (lines_of s.records.now) s.globals };
}

impl<'r, K: NumberKind> Script<'r, K> {
    // The records as `read_script` left them for this number kind.
    fn new(records: &'r [Record]) -> Script<'r, K>
        requires { Accepted K.kind.least K.kind.most records.now }
        ensures { result ≡ records.now }
    {
        Script {
            records,
            globals: Globals::of(records),
            kind: PhantomData,
        }
    }

    /// Its records, a line each, at most 2048.
    pub fn records(&self) -> &'r [Record]
        ensures is { result.now ≡ self.now }
        ensures accepted { Accepted K.kind.least K.kind.most self.now }
    {
        self.records
    }

    /// How many cells its globals take.
    pub fn cells(&self) -> u32
        ensures { result ≡ (globals_of (lines_of self.now)).taken }
    {
        cells_taken(self.records)
    }

    /// The role of the global of that sort and name, which has its cells: `Role::GlobalSimple` or `Role::GlobalArray`. None where the name is of
    /// no global of the sort.
    pub fn global(&self, sort: GlobalSort, name: Name) -> Option<Role>
        ensures { result ≡ global_role (lines_of self.now) sort name }
    {
        let declaration = self.globals.find(sort.sought(), name)?;
        Some(declaration.role)
    }
}
