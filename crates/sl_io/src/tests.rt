use crate::{
    FetchError, FileShelf, MemShelf, MemSink, OutSink, Shelf, Sink, SinkFault, WriteError,
};
use std::alloc::{AllocError, Global};
use std::io::Write;
use std::process::Abort;
use std::test::Fail;
use std::{fs, io};

// A file of a shelf in memory.
fn file(alloc: Global, name: &str, text: &str) -> Result<(String, Vec<u8>), AllocError> {
    let name = String::from_str(alloc, name)?;
    let mut bytes = Vec::new(alloc);
    bytes.extend_from_slice(text.as_bytes())?;
    Ok((name, bytes))
}

// Fetches behind four bytes, and compares the answer and all that stands there afterwards.
fn assert_fetch<S: Shelf>(
    rt: &(impl Abort + Alloc<A = Global>),
    shelf: &mut S,
    name: &str,
    answer: Result<(), FetchError>,
    after: &[u8],
) -> Result<(), Fail> {
    let mut into = Vec::new(rt.alloc());
    into.extend_from_slice(b"head")?;
    assert!(rt;
        shelf.fetch(name, &mut into) == answer,
        "the answer at {name}"
    );
    assert!(rt; into.as_slice() == after, "the bytes at {name}");
    Ok(())
}

#[test]
fn a_shelf_in_memory_answers_call_by_call(rt: HostRuntime) -> Result<(), Fail> {
    let alloc = rt.alloc();
    let files = vec![in alloc;
        file(alloc, "scores", "12")?,
        file(alloc, "pools", "p,1")?,
        file(alloc, "scores", "second")?,
    ]?;
    let mut shelf = MemShelf::new(files, vec![in alloc; 3]?);
    for (name, answer, after) in [
        ("scores", Ok(()), b"head12".as_slice()),
        ("scores", Ok(()), b"head12"),
        ("pools", Err(FetchError::Fault), b"head"),
        ("pools", Ok(()), b"headp,1"),
        ("quotas", Err(FetchError::Fault), b"head"),
    ] {
        assert_fetch(&rt, &mut shelf, name, answer, after)?;
    }
    Ok(())
}

#[test]
fn a_file_shelf_fetches_what_was_written(rt: HostRuntime) -> Result<(), Fail> {
    // Longer than one read.
    let mut text = vec![in rt.alloc(); b'a'; 20_000]?;
    text.extend_from_slice(b"end")?;
    fs::write(&rt, "scores.csv", text.as_slice())?;
    let mut after = Vec::new(rt.alloc());
    after.extend_from_slice(b"head")?;
    after.extend_from_slice(&text)?;

    let mut shelf = FileShelf::new(&rt);
    assert_fetch(&rt, &mut shelf, "scores.csv", Ok(()), &after)?;
    assert_fetch(
        &rt,
        &mut shelf,
        "pools.csv",
        Err(FetchError::Fault),
        b"head",
    )?;
    assert_fetch(&rt, &mut shelf, "scores.csv", Ok(()), &after)?;
    fs::remove_file(&rt, "scores.csv")?;
    Ok(())
}

#[test]
fn a_sink_in_memory_takes_what_fits(rt: HostRuntime) -> Result<(), Fail> {
    let mut sink = MemSink::new(rt.alloc(), 20)?;
    for (piece, answer, taken) in [
        (b"0123456789".as_slice(), Ok(()), b"0123456789".as_slice()),
        (b"abcdefg", Ok(()), b"0123456789abcdefg"),
        (b"wxyz", Err(SinkFault), b"0123456789abcdefgwxy"),
        (b"", Ok(()), b"0123456789abcdefgwxy"),
        (b"q", Err(SinkFault), b"0123456789abcdefgwxy"),
    ] {
        assert!(rt; sink.put(piece) == answer);
        assert_eq!(rt; sink.bytes(), taken);
    }
    Ok(())
}

#[derive(Clone, Copy, PartialEq, Eq)]
enum End {
    WriteFails,
    WriteTakesNothing,
    FlushFails,
}

// A writer that takes two bytes a call, of `room` bytes in all.
#[derive(Drop)]
struct Stubborn {
    held: Vec<u8>,
    room: usize,
    end: End,
}

impl Write for Stubborn {
    fn write(&mut self, buf: &[u8]) -> io::Result<usize> {
        let count = buf.len().min(2).min(self.room);
        if count == 0 && self.end == End::WriteFails {
            return Err(io::Error::from(io::ErrorKind::BrokenPipe));
        }
        self.held.extend_from_slice(&buf[..count])?;
        self.room -= count;
        Ok(count)
    }

    fn flush(&mut self) -> io::Result<()> {
        if self.end == End::FlushFails {
            return Err(io::Error::from(io::ErrorKind::BrokenPipe));
        }
        Ok(())
    }
}

#[test]
fn an_out_sink_writes_or_fails_as_its_writer_does(rt: HostRuntime) -> Result<(), Fail> {
    let mut plain: Vec<u8> = Vec::new(rt.alloc());
    let mut sink = OutSink::new(&mut plain);
    assert!(rt; sink.put(b"two ") == Ok(()));
    assert!(rt; sink.put(b"pieces") == Ok(()));
    drop(sink);
    assert_eq!(rt; plain.as_slice(), b"two pieces".as_slice());

    for (room, end, answer, taken) in [
        (9, End::WriteFails, Ok(()), b"abcdefg".as_slice()),
        (3, End::WriteFails, Err(SinkFault), b"abc"),
        (3, End::WriteTakesNothing, Err(SinkFault), b"abc"),
        (9, End::FlushFails, Err(SinkFault), b"abcdefg"),
    ] {
        let held = Vec::new(rt.alloc());
        let mut writer = Stubborn { held, room, end };
        let mut sink = OutSink::new(&mut writer);
        assert!(rt; sink.put(b"abcdefg") == answer);
        drop(sink);
        assert_eq!(rt; writer.held.as_slice(), taken);
    }
    Ok(())
}

#[test]
fn errors_for_people(rt: HostRuntime) -> Result<(), Fail> {
    assert_eq!(rt;
        format!(in rt.alloc(); "{}", FetchError::TooLong)?.as_str(),
        "the file is longer than 268435456 bytes"
    );
    assert_eq!(rt;
        format!(in rt.alloc(); "{}", WriteError::from(SinkFault))?.as_str(),
        "the output cannot be written"
    );
    Ok(())
}
