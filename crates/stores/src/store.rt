// What a store is: a list of words of a fixed size.
ghost use Rattle.std.specs.Prelude.{◌≡◌, ℕ, ◌≤◌, List, length, slice_set, Some};
ghost use Rattle.std.specs.List.{slice_get};
ghost use Rattle.stores.specs.Answers.{AnswersPut};
ghost use Rattle.stores.specs.Lent.{Lent};
ghost use Rattle.stores.specs.Texts.{refusal_text};

use std::error::Error;
use std::fmt;

// No store has more cells than this.
pub const MOST_CELLS: usize = 65536;

// Why a request is refused: it names a place at the size or above it.
#[derive(Clone, Copy, PartialEq, Eq, Debug)]
pub struct NoSuchCell;

impl fmt::Display for NoSuchCell {
    ghost output = { λ _. Some refusal_text };

    fn fmt<W: fmt::Write>(&self, f: &mut fmt::Formatter<W>) -> fmt::Result {
        f.write_str("refused")
    }
}

impl Error for NoSuchCell {}

pub trait Store {
    // The words of the cells, from cell 0 on: all that a store means.
    ghost words: { Self → List ℕ };

    // What the owner of the store's memory counts on.
    ghost lent: { Self → Lent };

    // How many cells there are.
    fn size(&self) -> usize
        ensures size { result ≡ length (words self.now) }
        ensures most { result ≤ 65536 };

    // The word of a cell, or none at the size and above it.
    fn load(&self, at: usize) -> Option<u32>
        ensures { result ≡ slice_get (words self.now) at };

    // Sets a cell to a word, and no other cell. A refused put changes nothing: `slice_set` leaves a list as it is at its length and above.
    fn put(&mut self, at: usize, word: u32) -> Result<(), NoSuchCell>
        ensures answer { AnswersPut (words self.old) at result }
        ensures words { words self.new ≡ slice_set (words self.old) at word }
        ensures lent { lent self.new ≡ lent self.old };
}
