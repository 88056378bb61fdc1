use super::*;
use std::io;
use std::test::Fail;

#[test]
fn reads_back_a_written_file(rt: HostRuntime) -> Result<(), Fail> {
    let mut shelf = FileShelf::new(rt.alloc(), &rt);
    let mut bytes = Vec::new(rt.alloc());
    fs::write(&rt, "shelf_test.txt", "one\ntwo\n")?;
    let read = shelf.fetch(rt.alloc(), "shelf_test.txt", &mut bytes);
    fs::remove_file(&rt, "shelf_test.txt")?;
    assert_eq!(rt; read, Ok(()));
    assert_eq!(rt; bytes.as_slice(), b"one\ntwo\n".as_slice());
    assert_eq!(rt; shelf.named.len(), 0);

    let absent = shelf.fetch(rt.alloc(), "shelf_test.txt", &mut bytes);
    assert_eq!(rt; absent, Err(FetchFault::Failed));
    assert_eq!(rt; bytes.len(), 8);
    assert_eq!(rt; shelf.named.len(), 1);
    Ok(())
}

// Fetches a file of so many bytes, and tells whether they were given.
fn fetch_of(
    rt: &HostRuntime,
    name: &str,
    length: usize,
) -> Result<(Result<(), FetchFault>, bool), Fail> {
    let mut shelf = FileShelf::new(rt.alloc(), rt);
    let mut into = Vec::new(rt.alloc());
    let bytes = vec![in rt.alloc(); 7u8; length]?;
    fs::write(rt, name, bytes.as_slice())?;
    let read = shelf.fetch(rt.alloc(), name, &mut into);
    fs::remove_file(rt, name)?;
    Ok((read, into.as_slice() == bytes.as_slice()))
}

#[test]
fn files_about_the_limit(rt: HostRuntime) -> Result<(), Fail> {
    assert_eq!(rt; fetch_of(&rt, "shelf_0.txt", 0)?, (Ok(()), true));
    assert_eq!(rt; fetch_of(&rt, "shelf_1.txt", 1)?, (Ok(()), true));
    assert_eq!(rt; fetch_of(&rt, "shelf_2.txt", 1048575)?, (Ok(()), true));
    assert_eq!(rt; fetch_of(&rt, "shelf_3.txt", 1048576)?, (Ok(()), true));
    assert_eq!(rt;
        fetch_of(&rt, "shelf_4.txt", 1048577)?,
        (Err(FetchFault::TooLong), false)
    );
    Ok(())
}

#[test]
fn names_with_spaces(rt: HostRuntime) -> Result<(), Fail> {
    assert_eq!(rt; fetch_of(&rt, " shelf test ", 3)?, (Ok(()), true));
    let mut shelf = FileShelf::new(rt.alloc(), &rt);
    let mut into = Vec::new(rt.alloc());
    fs::write(&rt, " shelf test ", "one")?;
    let trimmed = shelf.fetch(rt.alloc(), "shelf test", &mut into);
    fs::remove_file(&rt, " shelf test ")?;
    assert_eq!(rt; trimmed, Err(FetchFault::Failed));
    Ok(())
}

// A file of which a signal interrupts so many reads.
#[derive(Drop)]
struct Interrupted {
    interrupts: u32,
    bytes: u32,
}

impl Read for Interrupted {
    fn read(&mut self, buffer: &mut [u8]) -> io::Result<usize> {
        if self.interrupts > 0 {
            self.interrupts -= 1;
            return Err(io::Error::new(ErrorKind::Interrupted, "a signal"));
        }
        if self.bytes == 0 || buffer.is_empty() {
            return Ok(0);
        }
        self.bytes -= 1;
        buffer[0] = 7;
        Ok(1)
    }
}

#[test]
fn interrupted_reads(rt: HostRuntime) {
    let mut file = Interrupted {
        interrupts: 3,
        bytes: 2,
    };
    match read_whole(rt.alloc(), &mut file) {
        Ok(bytes) => assert_eq!(rt; bytes.as_slice(), [7u8, 7].as_slice()),
        Err(_) => assert!(rt; false),
    }
}
