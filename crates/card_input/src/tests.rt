// Cards from readers that give their bytes in pieces, too many of them, or an error in the middle.
use crate::read_card;
use std::alloc::{AllocError, Global};
use std::io;
use std::io::{ErrorKind, Read};
use std::test::Fail;

// Gives its bytes in pieces of at most `piece`, and at their end the failure, if there is one; each read is first
// interrupted where `interrupted` is true.
#[derive(Drop)]
struct Pieces<'a> {
    rest: &'a [u8],
    piece: usize,
    failure: Option<ErrorKind>,
    interrupted: bool,
    interrupts: bool,
}

impl<'a> Pieces<'a> {
    fn new(bytes: &'a [u8], piece: usize) -> Pieces<'a> {
        Pieces {
            rest: bytes,
            piece,
            failure: None,
            interrupted: false,
            interrupts: false,
        }
    }
}

impl Read for Pieces<'_> {
    fn read(&mut self, buf: &mut [u8]) -> io::Result<usize> {
        self.interrupted = self.interrupts && !self.interrupted;
        if self.interrupted {
            return Err(ErrorKind::Interrupted.into());
        }
        if let (true, Some(kind)) = (self.rest.is_empty(), self.failure) {
            return Err(kind.into());
        }
        let count = self.piece.min(buf.len()).min(self.rest.len());
        let (given, rest) = self.rest.split_at(count);
        buf[..count].copy_from_slice(given);
        self.rest = rest;
        Ok(count)
    }
}

// Bytes of which no two that are near are the same.
fn sample(alloc: Global, length: usize) -> Result<Vec<u8>, AllocError> {
    (0..length).map(|index| (index % 251) as u8).collect(alloc)
}

// What comes of reading a card.
fn outcome(alloc: Global, reader: &mut Pieces<'_>) -> Result<Vec<u8>, ErrorKind> {
    read_card(alloc, reader).map_err(|error| error.kind())
}

#[test]
fn in_pieces(rt: HostRuntime) -> Result<(), Fail> {
    let bytes = sample(rt.alloc(), 1000)?;
    for piece in [1, 7, 999, 1000, 5000] {
        let mut reader = Pieces::new(bytes.as_slice(), piece);
        let card = read_card(rt.alloc(), &mut reader)?;
        assert_eq!(rt; card.as_slice(), bytes.as_slice());
        assert_eq!(rt; reader.rest.len(), 0);
    }
    Ok(())
}

#[test]
fn of_nothing(rt: HostRuntime) -> Result<(), Fail> {
    let card = read_card(rt.alloc(), &mut Pieces::new(&[], 1))?;
    assert_eq!(rt; card.len(), 0);
    Ok(())
}

// 65,537 bytes are read of a longer card, and the next byte is still there; a card of 65,536 is read whole.
#[test]
fn too_long(rt: HostRuntime) -> Result<(), Fail> {
    let bytes = sample(rt.alloc(), 70000)?;
    let read = sample(rt.alloc(), 65537)?;
    for piece in [1, 4096, 70000] {
        let mut reader = Pieces::new(bytes.as_slice(), piece);
        let card = read_card(rt.alloc(), &mut reader)?;
        assert_eq!(rt; card.as_slice(), read.as_slice());
        assert_eq!(rt; reader.rest.len(), 70000 - 65537);
    }
    let longest = sample(rt.alloc(), 65536)?;
    let card = read_card(rt.alloc(), &mut Pieces::new(longest.as_slice(), 1000))?;
    assert_eq!(rt; card.as_slice(), longest.as_slice());
    Ok(())
}

// An error after some bytes comes out as itself, and not as a shorter card; one past the last byte that is read does not come.
#[test]
fn cut_off(rt: HostRuntime) -> Result<(), Fail> {
    for length in [0, 1, 1000, 65536] {
        let bytes = sample(rt.alloc(), length)?;
        let mut reader = Pieces::new(bytes.as_slice(), 300);
        reader.failure = Some(ErrorKind::ConnectionReset);
        let card = outcome(rt.alloc(), &mut reader);
        assert_eq!(rt; card.err(), Some(ErrorKind::ConnectionReset));
    }
    let bytes = sample(rt.alloc(), 65537)?;
    let mut reader = Pieces::new(bytes.as_slice(), 300);
    reader.failure = Some(ErrorKind::ConnectionReset);
    let card = read_card(rt.alloc(), &mut reader)?;
    assert_eq!(rt; card.len(), 65537);
    Ok(())
}

// A read that is interrupted is tried again, and no byte is lost or read twice.
#[test]
fn interrupted(rt: HostRuntime) -> Result<(), Fail> {
    let bytes = sample(rt.alloc(), 1000)?;
    let mut reader = Pieces::new(bytes.as_slice(), 300);
    reader.interrupts = true;
    let card = read_card(rt.alloc(), &mut reader)?;
    assert_eq!(rt; card.as_slice(), bytes.as_slice());
    Ok(())
}
