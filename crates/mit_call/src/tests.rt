use super::*;
use run_watch::Nobody;
use std::io;
use std::io::{Error, ErrorKind};
use std::test::Fail;
use tim_base::shelf::MemShelf;

// A writer that takes all bytes, counts its flushes, and fails at each or at none.
#[derive(Drop)]
struct Flushed {
    bytes: Vec<u8>,
    flushes: u32,
    fails: bool,
}

impl Write for Flushed {
    fn write(&mut self, piece: &[u8]) -> io::Result<usize> {
        if self.bytes.extend_from_slice(piece).is_err() {
            return Err(Error::new(ErrorKind::StorageFull, "full"));
        }
        Ok(piece.len())
    }

    fn flush(&mut self) -> io::Result<()> {
        self.flushes = self.flushes.saturating_add(1);
        if self.fails {
            return Err(Error::new(ErrorKind::StorageFull, "full"));
        }
        Ok(())
    }
}

// The exit number and the writer of a call of `check` over a program that is accepted.
fn checked(alloc: Global, shelf: &mut MemShelf, fails: bool) -> Result<(u8, Flushed), Fail> {
    let mut words = Vec::new(alloc);
    words.push(String::from_str(alloc, "check")?)?;
    words.push(String::from_str(alloc, "p")?)?;
    let out = Flushed {
        bytes: Vec::new(alloc),
        flushes: 0,
        fails,
    };
    Ok(call(alloc, &words, shelf, out, Nobody))
}

#[test]
fn a_flush_that_fails_is_a_write_fault(rt: HostRuntime) -> Result<(), Fail> {
    let mut shelf = MemShelf::new(rt.alloc());
    assert_eq!(rt; shelf.put("p", b"skip"), Ok(()));
    let (number, out) = checked(rt.alloc(), &mut shelf, false)?;
    assert_eq!(rt; number, 0);
    assert_eq!(rt; out.flushes, 1);
    assert_eq!(rt;
        out.bytes.as_slice(),
        b"accepted: commands 1, mitigates 0\n".as_slice()
    );

    let (number, out) = checked(rt.alloc(), &mut shelf, true)?;
    assert_eq!(rt; number, 6);
    assert_eq!(rt; out.flushes, 1);
    assert_eq!(rt;
        out.bytes.as_slice(),
        b"accepted: commands 1, mitigates 0\n".as_slice()
    );
    Ok(())
}
