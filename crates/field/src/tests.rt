// A card from readers that give their bytes in pieces or fail, to writers that take them in pieces or fail.
use crate::run_card;
use std::io;
use std::io::{ErrorKind, Read, Write};
use std::test::Fail;

// A global that is assigned 5, and what is written of its run.
const CARD: &str = "1,g,1,0,0,0\n2,x,1,0,0,0\n3,k,5,0,0,0\n4,s,2,3,0,0\n";

const REPORT: &str = "f,0,0,1\nx,1,0,5\n";

// Gives a byte a read, and at the end the failure, if there is one.
#[derive(Drop)]
struct ByteByByte<'a> {
    rest: &'a [u8],
    failure: Option<ErrorKind>,
}

impl Read for ByteByByte<'_> {
    fn read(&mut self, buf: &mut [u8]) -> io::Result<usize> {
        if let (true, Some(kind)) = (self.rest.is_empty(), self.failure) {
            return Err(kind.into());
        }
        let count = self.rest.len().min(buf.len()).min(1);
        let (given, rest) = self.rest.split_at(count);
        buf[..count].copy_from_slice(given);
        self.rest = rest;
        Ok(count)
    }
}

// Takes a byte a write, up to its room, and then fails.
#[derive(Drop)]
struct Narrow {
    taken: Vec<u8>,
    room: usize,
}

impl Write for Narrow {
    fn write(&mut self, buf: &[u8]) -> io::Result<usize> {
        if self.taken.len() >= self.room {
            return Err(ErrorKind::StorageFull.into());
        }
        let count = buf.len().min(1);
        self.taken.extend_from_slice(&buf[..count])?;
        Ok(count)
    }

    fn flush(&mut self) -> io::Result<()> {
        Ok(())
    }
}

#[test]
fn byte_by_byte(rt: HostRuntime) -> Result<(), Fail> {
    let mut reader = ByteByByte {
        rest: CARD.as_bytes(),
        failure: None,
    };
    let mut writer = Narrow {
        taken: Vec::new(rt.alloc()),
        room: 100,
    };
    run_card(rt.alloc(), &mut reader, &mut writer)?;
    assert_eq!(rt; writer.taken.as_slice(), REPORT.as_bytes());
    Ok(())
}

// The card that was read so far would make a run: the error comes in its place, and nothing is written.
#[test]
fn a_reader_that_fails(rt: HostRuntime) -> Result<(), Fail> {
    let mut reader = ByteByByte {
        rest: CARD.as_bytes(),
        failure: Some(ErrorKind::ConnectionReset),
    };
    let mut written = Vec::new(rt.alloc());
    let failed = run_card(rt.alloc(), &mut reader, &mut written);
    assert_eq!(rt;
        failed.map_err(|error| error.kind()),
        Err(ErrorKind::ConnectionReset)
    );
    assert!(rt; written.is_empty());
    Ok(())
}

#[test]
fn a_writer_that_fails(rt: HostRuntime) -> Result<(), Fail> {
    let mut reader = CARD.as_bytes();
    let mut writer = Narrow {
        taken: Vec::new(rt.alloc()),
        room: 9,
    };
    let failed = run_card(rt.alloc(), &mut reader, &mut writer);
    assert_eq!(rt;
        failed.map_err(|error| error.kind()),
        Err(ErrorKind::StorageFull)
    );
    assert_eq!(rt; writer.taken.as_slice(), &REPORT.as_bytes()[..9]);
    Ok(())
}

// A card of 65,537 bytes and more is refused for its size, where each of its lines may be right.
#[test]
fn a_card_that_is_too_long(rt: HostRuntime) -> Result<(), Fail> {
    let mut reader = io::repeat(b'\n');
    let mut written = Vec::new(rt.alloc());
    run_card(rt.alloc(), &mut reader, &mut written)?;
    assert_eq!(rt; written.as_slice(), b"r,1,0,0\n".as_slice());
    Ok(())
}
