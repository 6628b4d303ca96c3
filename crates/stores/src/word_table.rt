// A store over a lent slice of words: cell by cell the words themselves.
ghost use Rattle.std.specs.Prelude.{◌≡◌};
ghost use Rattle.stores.specs.Tables.{table_words, table_lent};

use crate::store::{MOST_CELLS, NoSuchCell, Store};

// The first 65,536 words of the slice, or all of them where there are fewer. The others are left alone.
#[derive(Drop)]
pub struct WordTable<'a> {
    cells: &'a mut [u32],
}

impl<'a> WordTable<'a> {
    // Takes the slice as it is.
    pub fn new(cells: &'a mut [u32]) -> WordTable<'a>
        ensures cells { result.cells.now ≡ cells.old }
        ensures loan { result.cells.ghost_name ≡ cells.entry.ghost_name }
    {
        WordTable { cells }
    }
}

impl<'a> Store for WordTable<'a> {
    ghost words = { λ s. table_words s.cells.now };

    ghost lent = { λ s. table_lent s.cells.ghost_name s.cells.now };

    fn size(&self) -> usize {
        self.cells.len().min(MOST_CELLS)
    }

    fn load(&self, at: usize) -> Option<u32> {
        self.cells[..self.size()].get(at).copied()
    }

    fn put(&mut self, at: usize, word: u32) -> Result<(), NoSuchCell> {
        if at >= self.size() {
            return Err(NoSuchCell);
        }
        self.cells[at] = word;
        Ok(())
    }
}
