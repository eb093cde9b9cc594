use super::*;
use std::alloc::Global;
use std::io::Write;
use std::process::Abort;
use std::test::Fail;
use std::{fs, io};

const LINES: &[u8; 9] = b"one\ntwo\n\n";

/// A folder that gives a byte at a time of the folder below it.
#[derive(Drop)]
struct Slow<F> {
    below: F,
}

impl<F: Folder> Folder for Slow<F> {
    ghost use Rattle.std.specs.Prelude.{None};

    ghost bytes = { λ _ _. None };

    ghost spare = { λ s. F.spare s.below };

    ghost read_faults = { λ s. F.read_faults s.below };

    ghost write_faults = { λ s. F.write_faults s.below };

    fn read_at(&mut self, name: &str, at: u64, buf: &mut [u8]) -> Result<usize, Failed> {
        self.below.read_at(name, at, &mut buf[..1])
    }
}

/// A sink that takes a byte at a time for the sink below it.
#[derive(Drop)]
struct Narrow<S> {
    below: S,
}

impl<S: Sink> Sink for Narrow<S> {
    ghost use Rattle.std.specs.Prelude.{None};

    ghost bytes = { λ _. None };

    ghost spare = { λ s. S.spare s.below };

    ghost faults = { λ s. S.faults s.below };

    fn reserve(&mut self, more: usize) -> Result<(), NoMemory> {
        self.below.reserve(more)
    }

    fn write(&mut self, piece: &[u8]) -> Result<usize, Failed> {
        self.below.write(&piece[..1])
    }
}

/// A stream that takes nothing.
#[derive(Drop)]
struct Full;

impl Write for Full {
    fn write(&mut self, _buf: &[u8]) -> io::Result<usize> {
        Ok(0)
    }

    fn flush(&mut self) -> io::Result<()> {
        Ok(())
    }
}

/// A stream that takes a byte at a time, and keeps it.
#[derive(Drop)]
struct Dripping {
    taken: Vec<u8>,
}

impl Write for Dripping {
    ghost use Rattle.std.specs.Prelude.{Some};

    ghost contents = { λ s. Some s.taken.items };

    fn write(&mut self, buf: &[u8]) -> io::Result<usize> {
        let Some(first) = buf.first() else {
            return Ok(0);
        };
        self.taken.push(*first)?;
        Ok(1)
    }

    fn flush(&mut self) -> io::Result<()> {
        Ok(())
    }
}

fn shared<T: Send + Sync>(_: &T) {}

/// The numbers below 50,000 in two bytes each: no part of some bytes comes twice at a distance that is even.
fn numbers(alloc: Global) -> Result<Vec<u8>, NoMemory> {
    let mut text = Vec::new(alloc);
    for i in 0..50_000u32 {
        text.push((i % 256) as u8)?;
        text.push((i / 256) as u8)?;
    }
    Ok(text)
}

fn long_text(alloc: Global) -> Result<Vec<u8>, NoMemory> {
    let mut text = Vec::new(alloc);
    for i in 0..200_000u32 {
        text.push((i % 251) as u8)?;
    }
    Ok(text)
}

#[test]
fn a_read_gives_the_part_that_stands_there(rt: HostRuntime) -> Result<(), Fail> {
    let mut folder = MemFolder::new(rt.alloc());
    folder.insert("lines", LINES)?;
    shared(&folder);
    for (at, want) in [(0, 4), (6, 3), (8, 1), (9, 0), (10, 0), (u64::MAX, 0)] {
        let mut buf = [0u8; 4];
        let n = folder.read_at("lines", at, &mut buf)?;
        assert_eq!(rt; n, want, "at {at}");
        let start = (at as usize).min(9);
        assert_eq!(rt; buf.get(..n), LINES.get(start..start + n), "at {at}");
    }
    let mut buf = [0u8; 4];
    assert_eq!(rt; folder.read_at("other", 0, &mut buf), Err(Failed));
    Ok(())
}

#[test]
fn a_file_is_read_to_its_end_or_to_the_limit(rt: HostRuntime) -> Result<(), Fail> {
    let long = long_text(rt.alloc())?;
    let mut folder = MemFolder::new(rt.alloc());
    folder.insert("long", long.as_slice())?;
    folder.insert("long.2", b"")?;
    for limit in [0, 1, 65_536, 199_999, 200_000, 200_001, usize::MAX] {
        let text = read_whole(rt.alloc(), &mut folder, "long", limit)?;
        assert_eq!(rt;
            Some(text.as_slice()),
            long.get(..limit.min(200_000)),
            "to {limit}"
        );
    }
    let empty = read_whole(rt.alloc(), &mut folder, "long.2", 10)?;
    assert_eq!(rt; empty.len(), 0);
    let missing = read_whole(rt.alloc(), &mut folder, "none", 10);
    assert_eq!(rt; missing.err(), Some(ReadError::Fault));
    Ok(())
}

#[test]
fn a_read_that_fails_in_mid_stream_is_a_fault(rt: HostRuntime) -> Result<(), Fail> {
    let long = long_text(rt.alloc())?;
    let mut folder = MemFolder::new(rt.alloc());
    folder.insert("long", long.as_slice())?;
    folder.fail_read(2)?;
    let cut = read_whole(rt.alloc(), &mut folder, "long", 300_000);
    assert_eq!(rt; cut.err(), Some(ReadError::Fault));
    let whole = read_whole(rt.alloc(), &mut folder, "long", 300_000)?;
    assert_eq!(rt; whole.as_slice(), long.as_slice());
    Ok(())
}

#[test]
fn a_file_is_read_a_byte_at_a_time(rt: HostRuntime) -> Result<(), Fail> {
    let mut below = MemFolder::new(rt.alloc());
    below.insert("lines", LINES)?;
    below.fail_read(14)?;
    let mut folder = Slow { below };
    let text = read_whole(rt.alloc(), &mut folder, "lines", 100)?;
    assert_eq!(rt; text.as_slice(), LINES.as_slice());
    let cut = read_whole(rt.alloc(), &mut folder, "lines", 100);
    assert_eq!(rt; cut.err(), Some(ReadError::Fault));
    Ok(())
}

#[test]
fn a_write_that_fails_leaves_a_prefix(rt: HostRuntime) -> Result<(), Fail> {
    for (failing, want) in [(1, 0), (4, 3), (9, 8), (10, 9)] {
        let mut below = MemSink::new(rt.alloc());
        below.fail_write(failing)?;
        let mut sink = Narrow { below };
        sink.reserve(LINES.len())?;
        let result = write_whole(&mut sink, LINES);
        let Narrow { below } = sink;
        assert_eq!(rt; result.is_err(), want < 9, "at {failing}");
        assert_eq!(rt; Some(below.as_slice()), LINES.get(..want), "at {failing}");
        shared(&below);
    }
    Ok(())
}

#[test]
fn an_empty_text_is_no_call(rt: HostRuntime) -> Result<(), Fail> {
    let mut sink = MemSink::new(rt.alloc());
    sink.fail_write(1)?;
    assert_eq!(rt; write_whole(&mut sink, b""), Ok(()));
    sink.reserve(1)?;
    assert_eq!(rt; write_whole(&mut sink, b"a"), Err(Failed));
    sink.reserve(1)?;
    assert_eq!(rt; write_whole(&mut sink, b"b"), Ok(()));
    assert_eq!(rt; sink.as_slice(), b"b".as_slice());
    Ok(())
}

#[test]
fn where_nothing_fails_each_file_stands_and_each_text_is_whole(
    rt: HostRuntime,
) -> Result<(), Fail> {
    let mut folder = NeverFolder::new(rt.alloc());
    folder.insert("lines", LINES)?;
    shared(&folder);
    let text = read_whole(rt.alloc(), &mut folder, "lines", 100)?;
    let none = read_whole(rt.alloc(), &mut folder, "none", 100)?;
    assert_eq!(rt; none.len(), 0);
    let mut sink = NeverSink::new(rt.alloc());
    sink.reserve(text.len())?;
    write_whole(&mut sink, text.as_slice())?;
    shared(&sink);
    assert_eq!(rt; sink.as_slice(), LINES.as_slice());
    Ok(())
}

#[test]
fn a_file_of_the_disk_is_read_back(rt: HostRuntime) -> Result<(), Fail> {
    fs::write(&rt, "lines.txt", LINES.as_slice())?;
    let mut folder = DiskFolder::new(&rt);
    let text = read_whole(rt.alloc(), &mut folder, "lines.txt", 100)?;
    assert_eq!(rt; text.as_slice(), LINES.as_slice());
    let start = read_whole(rt.alloc(), &mut folder, "lines.txt", 5)?;
    assert_eq!(rt; Some(start.as_slice()), LINES.get(..5));
    let missing = read_whole(rt.alloc(), &mut folder, "none.txt", 100);
    assert_eq!(rt; missing.err(), Some(ReadError::Fault));
    Ok(())
}

#[test]
fn a_long_file_of_the_disk_is_read_from_each_place(rt: HostRuntime) -> Result<(), Fail> {
    let text = numbers(rt.alloc())?;
    fs::write(&rt, "numbers.bin", text.as_slice())?;
    let mut folder = DiskFolder::new(&rt);
    for at in [
        0,
        1,
        65_534,
        65_536,
        65_537,
        81_920,
        99_997,
        100_000,
        1 << 40,
    ] {
        let mut buf = [0u8; 8];
        let n = folder.read_at("numbers.bin", at, &mut buf)?;
        let start = (at as usize).min(100_000);
        assert_eq!(rt; n == 0, start == 100_000, "at {at}");
        assert_eq!(rt; buf.get(..n), text.get(start..start + n), "at {at}");
    }
    let whole = read_whole(rt.alloc(), &mut folder, "numbers.bin", 200_000)?;
    assert_eq!(rt; whole.as_slice(), text.as_slice());
    fs::remove_file(&rt, "numbers.bin")?;
    Ok(())
}

#[test]
fn a_stream_that_takes_a_byte_at_a_time_gets_the_whole_text(rt: HostRuntime) -> Result<(), Fail> {
    let taken = Vec::new(rt.alloc());
    let mut stream = Dripping { taken };
    let mut sink = StdSink::new(&mut stream);
    sink.reserve(LINES.len())?;
    write_whole(&mut sink, LINES)?;
    assert_eq!(rt; stream.taken.as_slice(), LINES.as_slice());
    Ok(())
}

fn writes_a_line<W: Write + Drop>(rt: &impl Abort, stream: W) -> Result<(), Fail> {
    let mut sink = StdSink::new(stream);
    sink.reserve(6)?;
    assert_eq!(rt; write_whole(&mut sink, b"edge\n"), Ok(()));
    Ok(())
}

#[test]
fn the_standard_streams_take_a_line_and_a_full_one_fails(rt: HostRuntime) -> Result<(), Fail> {
    writes_a_line(&rt, rt.stdout())?;
    writes_a_line(&rt, rt.stderr())?;
    let mut full = StdSink::new(Full);
    full.reserve(1)?;
    assert_eq!(rt; write_whole(&mut full, b"a"), Err(Failed));
    Ok(())
}

#[test]
fn errors_are_told_in_words(rt: HostRuntime) -> Result<(), Fail> {
    let alloc = rt.alloc();
    assert_eq!(rt; Failed.to_string(alloc)?.as_str(), "the call failed");
    assert_eq!(rt; ReadError::Fault.to_string(alloc)?.as_str(), "read fault");
    assert_eq!(rt; ReadError::Memory.to_string(alloc)?.as_str(), "no memory");
    Ok(())
}
