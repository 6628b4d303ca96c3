// A store over a lent slice of bytes: four bytes a cell, the lowest byte of the word first.
ghost use Rattle.std.specs.Prelude.{◌≡◌, IfSome, slice_set};
ghost use Rattle.std.specs.List.{slice_get};
ghost use Rattle.stores.specs.Answers.{AnswersPut};
ghost use Rattle.stores.specs.Images.{image_words, image_lent, word_at, bytes_after};

use crate::store::{MOST_CELLS, NoSuchCell, Store};

// The first 65,536 whole cells of the slice, or all of them where there are fewer. What comes after is left alone, a last cell
// of one to three bytes too.
#[derive(Drop)]
pub struct ByteImage<'a> {
    bytes: &'a mut [u8],
}

impl<'a> ByteImage<'a> {
    // Takes the slice as it is.
    pub fn new(bytes: &'a mut [u8]) -> ByteImage<'a>
        ensures bytes { result.bytes.now ≡ bytes.old }
        ensures loan { result.bytes.ghost_name ≡ bytes.entry.ghost_name }
    {
        ByteImage { bytes }
    }
}

impl<'a> Store for ByteImage<'a> {
    ghost words = { λ s. image_words s.bytes.now };

    ghost lent = { λ s. image_lent s.bytes.ghost_name s.bytes.now };

    fn size(&self) -> usize {
        (self.bytes.len() / 4).min(MOST_CELLS)
    }

    // The word of the cell's four bytes.
    fn load(&self, at: usize) -> Option<u32>
        ensures word { result ≡ slice_get (image_words self.now.bytes.now) at }
        ensures bytes { IfSome result (λ word. word ≡ word_at self.now.bytes.now at) }
    {
        let (cells, _) = self.bytes.as_chunks();
        cells[..self.size()]
            .get(at)
            .copied()
            .map(u32::from_le_bytes)
    }

    // A put that is done writes the four bytes of its cell and no other byte. By their places: of a write through `as_chunks_mut`
    // the library does not say what the slice ends as.
    fn put(&mut self, at: usize, word: u32) -> Result<(), NoSuchCell>
        ensures answer { AnswersPut (image_words self.old.bytes.now) at result }
        ensures words { image_words self.new.bytes.now ≡ slice_set (image_words self.old.bytes.now) at word }
        ensures lent { image_lent self.new.bytes.ghost_name self.new.bytes.now ≡ image_lent self.old.bytes.ghost_name self.old.bytes.now }
        ensures bytes { self.new.bytes.now ≡ bytes_after self.old.bytes.now at word result }
    {
        if at >= self.size() {
            return Err(NoSuchCell);
        }
        self.bytes[4 * at..4 * at + 4].copy_from_slice(&word.to_le_bytes());
        Ok(())
    }
}
