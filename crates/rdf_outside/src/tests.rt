// The two edges, of which clauses tell no bytes: a real file in parts, and an output that takes less than it is given.
ghost use Rattle.std.specs.Prelude.{◌+◌, ◌<◌, ◌^◌};

use super::*;
use std::alloc::{AllocError, Global};
use std::cell::RefCell;
use std::fmt::Display;
use std::io::ErrorKind;
use std::test::Fail;
use std::thread::Threads;
use std::{env, fs, io};

// So many numbers of four bytes.
fn numbers(alloc: Global, count: u32) -> Result<Vec<u8>, AllocError> {
    let mut lines = Vec::new(alloc);
    for number in 0..count {
        for byte in number.to_be_bytes() {
            lines.push(byte)?;
        }
    }
    Ok(lines)
}

// What a file's parts are, one behind the other, and how many there are.
fn in_parts<R: Threads + Sync, S: Shelf>(
    rt: &R,
    alloc: Global,
    shelf: &mut S,
    max: usize,
    slots: u32,
) -> Result<(Vec<u8>, usize), ReadRefusal>
    requires { max + 1 < 2 ^ 64 }
{
    let parts = read_parts(rt, alloc, shelf, max, slots)?;
    let mut bytes = Vec::new(alloc);
    for part in &parts {
        let Ok(()) = bytes.extend_from_slice(part.as_slice()) else {
            return Err(ReadRefusal::Memory);
        };
    }
    Ok((bytes, parts.len()))
}

// Each of four bytes says where it stands, so parts out of order would be seen. The last part is one byte longer.
#[test]
fn a_real_file_is_read_in_parts(rt: HostRuntime) -> Result<(), Fail> {
    let alloc: Global = rt.alloc();
    let mut path = env::temp_dir(&rt)?;
    path.push("rdf_outside_a_real_file_is_read_in_parts")?;
    let mut written = numbers(alloc, 750_000)?;
    written.push(b'1')?;
    let len = written.len();
    fs::write(&rt, path.as_path(), written.as_slice())?;
    let Some(name) = path.as_path().to_str() else {
        panic!(rt; "the folder's name is no text");
    };
    let mut shelf = DirShelf::new(&rt);
    for (slots, count) in [(1, 1), (2, 2), (3, 3), (4, 4), (64, 5)] {
        assert!(rt; shelf.turn_to(name) == Ok(true));
        let (bytes, parts) = in_parts(&rt, alloc, &mut shelf, len, slots)?;
        assert_eq!(rt; parts, count);
        assert!(rt; bytes == written);
        assert!(rt; shelf.read(&mut [0; 8]) == Ok(0));
    }
    assert!(rt; shelf.turn_to(name) == Ok(true));
    assert!(rt;
        matches!(
            in_parts(&rt, alloc, &mut shelf, len - 1, 4),
            Err(ReadRefusal::TooLarge)
        )
    );
    assert!(rt; shelf.turn_to(name) == Ok(true));
    assert!(rt; shelf.read(&mut [0; 8]) == Ok(8));
    let (bytes, parts) = in_parts(&rt, alloc, &mut shelf, len, 4)?;
    assert_eq!(rt; parts, 1);
    assert!(rt; written.len() > 8);
    assert!(rt; bytes.as_slice() == &written[8..]);
    fs::remove_file(&rt, path.as_path())?;
    Ok(())
}

// Takes at most so many bytes of each write and keeps them, or fails.
#[derive(Drop)]
struct Printer {
    most: Option<usize>,
    taken: RefCell<Vec<u8>>,
}

fn printing(alloc: Global, most: Option<usize>) -> Printer {
    Printer {
        most,
        taken: RefCell::new(Vec::new(alloc)),
    }
}

impl Print for Printer {
    fn print<D: Display + Drop>(&self, _value: D) -> io::Result<()> {
        Ok(())
    }

    fn println<D: Display + Drop>(&self, _value: D) -> io::Result<()> {
        Ok(())
    }

    fn write_all(&self, _bytes: &[u8]) -> io::Result<()> {
        Ok(())
    }

    fn write_some(&self, bytes: &[u8]) -> io::Result<usize> {
        let (Some(most), Ok(mut taken)) = (self.most, self.taken.try_borrow_mut()) else {
            return Err(io::Error::from(ErrorKind::BrokenPipe));
        };
        let count = bytes.len().min(most);
        taken.extend_from_slice(&bytes[..count])?;
        Ok(count)
    }
}

// What is printed is each piece once, as far as it was taken.
#[test]
fn a_short_write_is_not_full(rt: HostRuntime) {
    let short = printing(rt.alloc(), Some(2));
    let mut sink = StdSink::new(&short);
    assert!(rt; sink.write(b"abc") == Ok(2));
    assert!(rt; write_whole(&mut sink, b"defgh") == Ok(()));
    assert_eq!(rt; short.taken.into_inner().as_slice(), b"abdefgh".as_slice());
    let full = printing(rt.alloc(), Some(0));
    let mut sink = StdSink::new(&full);
    assert!(rt; sink.write(b"") == Ok(0));
    assert!(rt; sink.write(b"abc") == Err(Failed));
    let broken = printing(rt.alloc(), None);
    let mut sink = StdSink::new(&broken);
    assert!(rt; sink.write(b"abc") == Err(Failed));
}
