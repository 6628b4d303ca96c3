// A card, as the programs read it from standard input.
#![tactic(auto)]

ghost use Rattle.std.specs.Prelude.{◌≡◌, ◌≢◌, ◌<◌, ◌≤◌, length, take, vec_len, IfErr, IfOk, IfSome, OnErr};
ghost use Rattle.std.specs.Io.{ReadsAtMost};
ghost use Rattle.std.specs.Io.KnownBytes.{Consumes, IsAtEnd, Keeps};
ghost use Rattle.std.specs.IoError.{error_kind};
ghost use Rattle.card_input.specs.Reading.{LosesAtMost, most_read};

#[cfg(test)]
mod tests;

use sheet::reader::MOST_BYTES;
use std::alloc::Global;
use std::io;
use std::io::{ErrorKind, Read};

// One byte past the most that a sheet may have is enough to refuse it.
const MOST_READ: usize = MOST_BYTES + 1;

// One read, tried again where a signal interrupts it.
fn read_once<R: Read>(reader: &mut R, room: &mut [u8]) -> io::Result<usize>
    ensures within { ReadsAtMost result room.new }
    ensures given { IfOk result (λ n. Consumes (R.remaining reader.old) (R.remaining reader.new) (take n room.new)) }
    ensures end { IfOk result (λ n. n ≡ 0 → 0 < length room.old → IsAtEnd (R.remaining reader.new)) }
    ensures failed { OnErr result (Keeps (R.remaining reader.old) (R.remaining reader.new)) }
    ensures retried { IfErr result (λ e. error_kind e ≢ ErrorKind.Interrupted) }
{
    for _ in 0..u64::MAX {
        match reader.read(room) {
            Ok(count) => return Ok(count),
            Err(error) => {
                if error.kind() != ErrorKind::Interrupted {
                    return Err(error);
                }
            }
        }
    }
    Err(ErrorKind::TimedOut.into())
}

// Fills the room as far as the reader gives bytes, and counts them. An error is the reader's, at once.
fn fill<R: Read>(reader: &mut R, room: &mut [u8]) -> io::Result<usize>
    ensures within { ReadsAtMost result room.new }
    ensures given { IfOk result (λ n. Consumes (R.remaining reader.old) (R.remaining reader.new) (take n room.new)) }
    ensures end { IfOk result (λ n. n < length room.new → IsAtEnd (R.remaining reader.new)) }
    ensures failed { OnErr result (LosesAtMost (length room.old) (R.remaining reader.old) (R.remaining reader.new)) }
    ensures retried { IfErr result (λ e. error_kind e ≢ ErrorKind.Interrupted) }
{
    let mut filled = 0;
    while filled < room.len() {
        let count = read_once(reader, &mut room[filled..])?;
        if count == 0 {
            break;
        }
        filled += count;
    }
    Ok(filled)
}

// The first `most` bytes that the reader gives, or all where it gives fewer.
fn read_up_to<R: Read>(alloc: Global, reader: &mut R, most: usize) -> io::Result<Vec<u8>>
    ensures bytes { IfOk result (λ read. IfSome (R.remaining reader.old) (λ all. read.items ≡ take most all)) }
    ensures given { IfOk result (λ read. Consumes (R.remaining reader.old) (R.remaining reader.new) read.items) }
    ensures most { IfOk result (λ read. vec_len read ≤ most) }
    ensures failed { OnErr result (LosesAtMost most (R.remaining reader.old) (R.remaining reader.new)) }
    ensures retried { IfErr result (λ e. error_kind e ≢ ErrorKind.Interrupted) }
{
    let mut bytes = vec![in alloc; 0; most]?;
    let count = fill(reader, bytes.as_mut_slice())?;
    bytes.truncate(count);
    Ok(bytes)
}

/// The bytes of a card, in order: all that the reader gives, or the first 65,537 where it gives more. That is one byte
/// past the most that a sheet may have, and so enough for the sheet to be refused. The reader has given these and no more.
///
/// # Errors
///
/// The reader's own error, at once, wherever it comes: so a card that is cut off by one never passes for a shorter
/// card. A read that a signal interrupts is no error, and is tried again. `OutOfMemory` where there is
/// no memory for the card.
pub fn read_card<R: Read>(alloc: Global, reader: &mut R) -> io::Result<Vec<u8>>
    ensures bytes { IfOk result (λ card. IfSome (R.remaining reader.old) (λ all. card.items ≡ take most_read all)) }
    ensures given { IfOk result (λ card. Consumes (R.remaining reader.old) (R.remaining reader.new) card.items) }
    ensures most { IfOk result (λ card. vec_len card ≤ most_read) }
    ensures failed { OnErr result (LosesAtMost most_read (R.remaining reader.old) (R.remaining reader.new)) }
    ensures retried { IfErr result (λ e. error_kind e ≢ ErrorKind.Interrupted) }
{
    read_up_to(alloc, reader, MOST_READ)
}
