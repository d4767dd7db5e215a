//! Shelves and sinks, in memory and real.

use np_outside::{
    Failed, FileShelf, MemShelf, MemSink, ReadError, Shelf, Sink, StdSink, read_file, write_all,
};
use std::alloc::{AllocError, Global};
use std::cell::{Cell, RefCell};
use std::fmt::Display;
use std::fs;
use std::io::{self, ErrorKind};
use std::process::Abort;
use std::test::Fail;

/// An output that takes one byte a call, and fails at each third call.
struct OneByOne {
    taken: RefCell<Vec<u8>>,
    calls: Cell<u64>,
}

impl Print for OneByOne {
    fn print<D: Display + Drop>(&self, _value: D) -> io::Result<()> {
        Err(io::Error::from(ErrorKind::Unsupported))
    }

    fn println<D: Display + Drop>(&self, _value: D) -> io::Result<()> {
        Err(io::Error::from(ErrorKind::Unsupported))
    }

    fn write_all(&self, _bytes: &[u8]) -> io::Result<()> {
        Err(io::Error::from(ErrorKind::Unsupported))
    }

    fn write_some(&self, bytes: &[u8]) -> io::Result<usize> {
        let calls = self.calls.get() % 3;
        self.calls.set(calls + 1);
        let Some(first) = bytes.first() else {
            return Ok(0);
        };
        if calls == 2 {
            return Err(io::Error::from(ErrorKind::WouldBlock));
        }
        match self.taken.try_borrow_mut() {
            Ok(mut taken) => taken.push(*first)?,
            Err(_) => return Err(io::Error::from(ErrorKind::Other)),
        }
        Ok(1)
    }
}

/// A shelf with one file.
fn shelf_of(alloc: Global, name: &[u8], bytes: &[u8]) -> Result<MemShelf, AllocError> {
    let mut shelf = MemShelf::new(alloc);
    shelf.put(name, bytes)?;
    Ok(shelf)
}

/// So many bytes, counting up from 0 and again from 0 after 250.
fn counting(alloc: Global, length: usize) -> Result<Vec<u8>, AllocError> {
    let mut bytes = Vec::new(alloc);
    for i in 0..length {
        bytes.push((i % 251) as u8)?;
    }
    Ok(bytes)
}

#[test]
fn reads_move_at_most_a_step(rt: HostRuntime) -> Result<(), Fail> {
    let mut shelf = shelf_of(rt.alloc(), b"a", b"hello world")?;
    shelf.set_step(4);
    shelf.begin(b"a")?;
    let mut buf = [0; 8];
    let table: [(usize, &[u8]); 6] = [
        (3, b"hel"),
        (8, b"lo w"),
        (0, b""),
        (8, b"orld"),
        (8, b""),
        (1, b""),
    ];
    for (room, want) in table {
        let count = shelf.read(&mut buf[..room])?;
        assert_eq!(rt; &buf[..count], want, "into {room}");
    }
    Ok(())
}

#[test]
fn named_calls_break_where_the_call_would_succeed(rt: HostRuntime) -> Result<(), Fail> {
    let mut shelf = shelf_of(rt.alloc(), b"a", b"xy")?;
    for call in [0, 2, 4, 7] {
        shelf.fail_at(call)?;
    }
    let mut buf = [0; 8];
    // A name to begin, or none to read; whether it succeeds; faults and breaks after it.
    let table: [(Option<&[u8]>, bool, u64, u64); 8] = [
        (None, false, 1, 0),
        (Some(b"a"), false, 2, 1),
        (None, false, 3, 1),
        (Some(b"b"), false, 4, 1),
        (Some(b"a"), true, 4, 1),
        (None, true, 4, 1),
        (None, false, 5, 2),
        (None, true, 5, 2),
    ];
    for (name, succeeds, faults, breaks) in table {
        let done = match name {
            Some(name) => shelf.begin(name).is_ok(),
            None => shelf.read(&mut buf).is_ok(),
        };
        assert_eq!(rt;
            (done, shelf.faults(), shelf.breaks()),
            (succeeds, faults, breaks)
        );
    }
    Ok(())
}

#[test]
fn a_file_that_is_replaced_is_read_to_its_end(rt: HostRuntime) -> Result<(), Fail> {
    let mut shelf = shelf_of(rt.alloc(), b"a", b"old")?;
    shelf.begin(b"a")?;
    shelf.put(b"a", b"newer")?;
    let mut buf = [0; 8];
    let count = shelf.read(&mut buf)?;
    assert_eq!(rt; &buf[..count], b"old".as_slice());
    shelf.begin(b"a")?;
    let count = shelf.read(&mut buf)?;
    assert_eq!(rt; &buf[..count], b"newer".as_slice());
    Ok(())
}

#[test]
fn a_sink_takes_steps_until_its_room_is_full(rt: HostRuntime) -> Result<(), Fail> {
    let mut sink = MemSink::new(rt.alloc(), 12)?;
    sink.set_step(8);
    sink.fail_at(2)?;
    // What is offered, how much is taken, and the faults after it.
    let table: [(&[u8], Result<usize, Failed>, u64); 6] = [
        (b"0123456789", Ok(8), 0),
        (b"89", Err(Failed), 1),
        (b"89", Ok(2), 1),
        (b"abc", Ok(2), 1),
        (b"c", Err(Failed), 2),
        (b"", Ok(0), 2),
    ];
    for (offered, want, faults) in table {
        let taken = sink.write(offered);
        assert_eq!(rt; taken, want);
        assert_eq!(rt; sink.faults(), faults);
    }
    assert_eq!(rt; sink.bytes(), b"0123456789ab".as_slice());
    Ok(())
}

#[test]
fn files_are_read_up_to_the_limit(rt: HostRuntime) -> Result<(), Fail> {
    let alloc = rt.alloc();
    // The file's length, the limit, and whether it is read.
    for (length, limit, fits) in [
        (0, 0, true),
        (1, 0, false),
        (4096, 4096, true),
        (5000, 5000, true),
        (5000, 4999, false),
        (9000, 100_000, true),
    ] {
        for step in [1, 4096] {
            let bytes = counting(alloc, length)?;
            let mut shelf = shelf_of(alloc, b"a", &bytes)?;
            shelf.set_step(step);
            match read_file(alloc, &mut shelf, b"a", limit) {
                Ok(read) => {
                    assert!(rt; fits, "{length} bytes, at most {limit}");
                    assert_eq!(rt; read.as_slice(), bytes.as_slice());
                }
                Err(cause) => {
                    assert!(rt; !fits, "{length} bytes, at most {limit}");
                    assert_eq!(rt; cause, ReadError::TooLong);
                }
            }
        }
    }
    Ok(())
}

#[test]
fn a_file_that_is_not_there_fails_without_a_break(rt: HostRuntime) -> Result<(), Fail> {
    let alloc = rt.alloc();
    let mut shelf = shelf_of(alloc, b"a", b"xy")?;
    let missing = read_file(alloc, &mut shelf, b"b", 9);
    assert_eq!(rt; missing.err(), Some(ReadError::Failed));
    assert_eq!(rt; (shelf.faults(), shelf.breaks()), (1, 0));
    shelf.fail_at(3)?;
    let broken = read_file(alloc, &mut shelf, b"a", 9);
    assert_eq!(rt; broken.err(), Some(ReadError::Failed));
    assert_eq!(rt; (shelf.faults(), shelf.breaks()), (2, 1));
    Ok(())
}

#[test]
fn all_bytes_are_written_or_a_prefix_of_them(rt: HostRuntime) -> Result<(), Fail> {
    let alloc = rt.alloc();
    // The room, the call that fails, whether all is written, and what is.
    let table: [(usize, u64, bool, &[u8]); 4] = [
        (7, 9, true, b"abcdefg"),
        (9, 3, false, b"abcdef"),
        (9, 1, false, b""),
        (5, 9, false, b"abcde"),
    ];
    for (room, call, all, want) in table {
        let mut sink = MemSink::new(alloc, room)?;
        sink.set_step(3);
        sink.fail_at(call)?;
        assert_eq!(rt; write_all(&mut sink, b"abcdefg").is_ok(), all);
        assert_eq!(rt; sink.bytes(), want);
    }
    Ok(())
}

#[test]
fn real_files_are_read_and_written(rt: HostRuntime) -> Result<(), Fail> {
    fs::write(&rt, "a.txt", "some text\n")?;
    fs::create_dir(&rt, "folder")?;
    let mut shelf = FileShelf::new(&rt);
    let mut buf = [0; 8];
    assert_eq!(rt; shelf.read(&mut buf), Err(Failed));
    let read = read_file(rt.alloc(), &mut shelf, b"a.txt", 99)?;
    assert_eq!(rt; read.as_slice(), b"some text\n".as_slice());
    let bytes = counting(rt.alloc(), 9_000)?;
    fs::write(&rt, " two words ", bytes.as_slice())?;
    let long = read_file(rt.alloc(), &mut shelf, b" two words ", 9_000)?;
    assert_eq!(rt; long.as_slice(), bytes.as_slice());
    let trimmed = read_file(rt.alloc(), &mut shelf, b"two words", 9_000);
    assert_eq!(rt; trimmed.err(), Some(ReadError::Failed));
    for name in [b"b.txt".as_slice(), b"folder", b"\xff"] {
        let refused = read_file(rt.alloc(), &mut shelf, name, 99);
        assert_eq!(rt; refused.err(), Some(ReadError::Failed));
    }
    assert_eq!(rt;
        shelf.read(&mut buf),
        Err(Failed),
        "after a begin that failed"
    );
    let mut sink = StdSink::new(&rt);
    write_all(&mut sink, &read)?;
    assert_eq!(rt; sink.write(b""), Ok(0));
    fs::remove_file(&rt, "a.txt")?;
    fs::remove_file(&rt, " two words ")?;
    Ok(fs::remove_dir(&rt, "folder")?)
}

#[test]
fn standard_output_is_offered_the_rest(rt: HostRuntime) -> Result<(), Fail> {
    let output = OneByOne {
        taken: RefCell::new(Vec::new(rt.alloc())),
        calls: Cell::new(0),
    };
    let mut sink = StdSink::new(&output);
    assert_eq!(rt; sink.write(b"ab"), Ok(1));
    assert_eq!(rt; sink.write(b"b"), Ok(1));
    assert_eq!(rt; sink.write(b"c"), Err(Failed));
    assert_eq!(rt; write_all(&mut sink, b"cd").is_ok(), true);
    assert_eq!(rt; write_all(&mut sink, b"ef").is_ok(), false);
    drop(sink);
    let OneByOne { taken, calls: _ } = output;
    let taken = taken.into_inner();
    assert_eq!(rt; taken.as_slice(), b"abcd".as_slice());
    Ok(())
}
