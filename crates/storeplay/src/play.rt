// Requests played on lent memory: the replies, and what the memory holds when the store's life is over.
ghost use Rattle.std.specs.Prelude.{◌≡◌, min, true, ◌++◌, length, take, drop};
ghost use Rattle.stores.specs.Accesses.{replies as replies_of, after_all};
ghost use Rattle.stores.specs.Images.{image_words, image_rest, bytes_of};
ghost use Rattle.stores.specs.Tables.{table_words, table_rest};

use stores::{Access, ByteImage, NoSuchCell, Reply, WordTable, same_answers, serve};

// `play_words` and `play_bytes` stay apart: what they share is `serve`, and what is promised of the memory is said in words of the
// one and in bytes of the other.

// On a slice of words. Past the table's cells the slice is untouched.
pub(crate) fn play_words(
    cells: &mut [u32],
    requests: &[Access],
    replies: &mut [Result<Reply, NoSuchCell>],
) -> usize
    ensures count { result ≡ min (length requests.now) (length replies.old) }
    ensures replies { replies.new ≡ replies_of (table_words cells.old) (take result requests.now) ++ drop result replies.old }
    ensures cells { cells.new ≡ after_all (table_words cells.old) (take result requests.now) ++ table_rest cells.old }
{
    serve(&mut WordTable::new(cells), requests, replies)
}

// On a slice of bytes. Past the image's whole cells the slice is untouched.
pub(crate) fn play_bytes(
    bytes: &mut [u8],
    requests: &[Access],
    replies: &mut [Result<Reply, NoSuchCell>],
) -> usize
    ensures count { result ≡ min (length requests.now) (length replies.old) }
    ensures replies { replies.new ≡ replies_of (image_words bytes.old) (take result requests.now) ++ drop result replies.old }
    ensures bytes { bytes.new ≡ bytes_of (after_all (image_words bytes.old) (take result requests.now)) ++ image_rest bytes.old }
{
    serve(&mut ByteImage::new(bytes), requests, replies)
}

// On both, told whether they reply alike: they do where the cells' words are those of the bytes.
pub(crate) fn play_both(cells: &mut [u32], bytes: &mut [u8], requests: &[Access]) -> bool
    ensures alike { table_words cells.old ≡ image_words bytes.old → result ≡ true }
    ensures cells { cells.new ≡ after_all (table_words cells.old) requests.now ++ table_rest cells.old }
    ensures bytes { bytes.new ≡ bytes_of (after_all (image_words bytes.old) requests.now) ++ image_rest bytes.old }
{
    same_answers(
        &mut WordTable::new(cells),
        &mut ByteImage::new(bytes),
        requests,
    )
}
