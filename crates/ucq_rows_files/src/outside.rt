//! Shelves and sinks, in memory and of the system.
use crate::asserts::{equal, holds, sure};
use std::alloc::{AllocError, Global};
use std::fmt::Display;
use std::io::{ErrorKind, Write};
use std::os::fd::AsRawFd;
use std::process::Abort;
use std::{env, fs, io, process};
use ucq_outside::{
    Failed, FileShelf, MemoryShelf, MemorySink, ROOM, Shelf, Sink, StandardError, StreamSink,
    SureShelf, SureSink,
};

/// The files of a shelf.
const THREE_FILES: [(&str, &str); 3] = [("a", "hello"), ("empty", ""), ("a", "second")];

fn owned(alloc: Global, files: &[(&str, &str)]) -> Result<Vec<(String, Vec<u8>)>, AllocError> {
    let mut all = Vec::new(alloc);
    for (name, text) in files {
        let name = String::from_str(alloc, name)?;
        all.push((name, text.as_bytes().to_vec(alloc)?))?;
    }
    Ok(all)
}

/// The three files.
fn three_files(rt: &impl Abort, alloc: Global) -> Vec<(String, Vec<u8>)> {
    sure(rt, owned(alloc, &THREE_FILES))
}

/// What a pull gives, or `failed`.
fn pulled<'a>(shelf: &mut impl Shelf, name: &str, place: u64, into: &'a mut [u8]) -> &'a [u8] {
    match shelf.pull(name, place, into) {
        Ok(n) => &into[..n],
        Err(Failed) => b"failed",
    }
}

/// Asserts that pulls into 8 bytes, each of a name and from a place on, give what stands beside them.
fn gives(rt: &impl Abort, shelf: &mut impl Shelf, calls: &[(&str, u64, &str)]) {
    let mut piece = [0u8; 8];
    for (name, place, want) in calls {
        assert_eq!(rt;
            pulled(shelf, name, *place, &mut piece),
            want.as_bytes(),
            "at {place}"
        );
    }
}

#[test]
fn a_memory_shelf_gives_what_fits_and_fails_where_told(rt: HostRuntime) {
    let mut shelf = MemoryShelf::new(
        three_files(&rt, rt.alloc()),
        sure(&rt, vec![in rt.alloc(); 2]),
    );
    let calls = [
        ("a", 0, "hello"),
        ("a", 3, "lo"),
        ("a", 0, "failed"),
        ("unknown", 0, "failed"),
        ("a", 4, "o"),
        ("a", 5, ""),
        ("a", u64::MAX, ""),
        ("empty", 0, ""),
    ];
    gives(&rt, &mut shelf, &calls);
    let mut narrow = [0u8; 2];
    assert_eq!(rt; pulled(&mut shelf, "a", 1, &mut narrow), b"el".as_slice());
    assert_eq!(rt; pulled(&mut shelf, "a", 1, &mut []), b"".as_slice());
}

#[test]
fn a_sure_shelf_takes_unknown_names_for_empty_files(rt: HostRuntime) {
    let mut shelf = SureShelf::new(three_files(&rt, rt.alloc()));
    let calls = [
        ("a", 0, "hello"),
        ("a", 3, "lo"),
        ("a", 5, ""),
        ("empty", 0, ""),
        ("unknown", 0, ""),
    ];
    gives(&rt, &mut shelf, &calls);
}

/// How many bytes a sink took, or none where it failed.
fn pushed(sink: &mut impl Sink, piece: &[u8]) -> Option<usize> {
    sink.push(piece).ok()
}

/// Asserts of each piece, in turn, how many bytes of it the sink takes, or that it fails.
fn takes(rt: &impl Abort, sink: &mut impl Sink, calls: &[(&[u8], Option<usize>)]) {
    for (piece, wanted) in calls {
        equal(rt, pushed(sink, piece), *wanted, "a piece");
    }
}

/// Bytes that fill a sink but for the first two of its room.
fn rest(rt: &impl Abort, alloc: Global) -> String {
    sure(rt, "-".repeat(alloc, ROOM - 2))
}

#[test]
fn a_memory_sink_fails_where_told_and_past_its_room(rt: HostRuntime) {
    let rest = rest(&rt, rt.alloc());
    let failing = sure(&rt, vec![in rt.alloc(); 1]);
    let mut sink = sure(&rt, MemorySink::new(rt.alloc(), failing));
    let calls: [(&[u8], Option<usize>); 6] = [
        (b"ab", Some(2)),
        (b"c", None),
        (b"", Some(0)),
        (rest.as_bytes(), Some(ROOM - 2)),
        (b"c", None),
        (b"", Some(0)),
    ];
    takes(&rt, &mut sink, &calls);
    equal(&rt, sink.taken().len(), ROOM, "taken");
    holds(&rt, sink.taken().starts_with(b"ab-"));
}

#[test]
fn a_sure_sink_takes_pieces_past_its_room(rt: HostRuntime) {
    let rest = rest(&rt, rt.alloc());
    let mut sink = sure(&rt, SureSink::new(rt.alloc()));
    takes(&rt, &mut sink, &[(b"ab", Some(2))]);
    holds(&rt, sink.taken() == b"ab".as_slice());
    let calls: [(&[u8], Option<usize>); 4] = [
        (rest.as_bytes(), Some(ROOM - 2)),
        (b"", Some(0)),
        (b"c", Some(1)),
        (rest.as_bytes(), Some(ROOM - 2)),
    ];
    takes(&rt, &mut sink, &calls);
    equal(&rt, sink.taken().len(), ROOM, "taken");
}

#[test]
fn a_file_shelf_reads_a_real_file_in_pieces(rt: HostRuntime) {
    let folder = sure(&rt, env::temp_dir(&rt));
    let folder = folder.as_path().as_str();
    let id = process::id(rt.process());
    let name = sure(&rt, format!(in rt.alloc(); "{folder}/ucq_outside_{id}"));
    let name = name.as_str();
    sure(&rt, fs::write(&rt, name, "0123456789abcd"));
    let mut shelf = FileShelf::new(&rt);
    let calls = [
        (name, 0, "01234567"),
        (name, 8, "89abcd"),
        (name, 14, ""),
        (name, 3, "3456789a"),
        (folder, 0, "failed"),
        (name, 11, "bcd"),
    ];
    gives(&rt, &mut shelf, &calls);
    sure(&rt, fs::remove_file(&rt, name));
    gives(&rt, &mut shelf, &[(name, 20, ""), (name, 0, "failed")]);
}

#[test]
fn a_stream_sink_writes_bytes_that_are_no_text(rt: HostRuntime) {
    let mut out = StreamSink::out(&rt);
    let mut err = StreamSink::err(&rt);
    takes(&rt, &mut out, &[(b"\xff\n", Some(2))]);
    takes(&rt, &mut err, &[(b"\xff\n", Some(2)), (b"", Some(0))]);
}

fn filled_pipe(rt: &HostRuntime) -> io::Result<io::PipeReader> {
    let (reader, mut writer) = io::pipe(rt)?;
    writer.write_all(b"0123456789abcd")?;
    Ok(reader)
}

#[test]
fn a_file_shelf_reads_a_pipe_which_cannot_seek(rt: HostRuntime) {
    let reader = sure(&rt, filled_pipe(&rt));
    let descriptor = reader.as_raw_fd();
    let name = sure(&rt, format!(in rt.alloc(); "/dev/fd/{descriptor}"));
    let name = name.as_str();
    let mut shelf = FileShelf::new(&rt);
    let calls = [
        (name, 0, "01234567"),
        (name, 8, "89abcd"),
        (name, 14, ""),
        (name, 1, "failed"),
    ];
    gives(&rt, &mut shelf, &calls);
}

// An error stream that takes some bytes of a piece, and flushes or not.
#[derive(Clone, Copy)]
struct Terminal {
    takes: usize,
    flushes: bool,
}

impl Write for Terminal {
    fn write(&mut self, piece: &[u8]) -> io::Result<usize> {
        Ok(self.takes.min(piece.len()))
    }

    fn flush(&mut self) -> io::Result<()> {
        if self.flushes {
            return Ok(());
        }
        Err(io::Error::from(ErrorKind::Other))
    }
}

impl Print for Terminal {
    fn print<D: Display + Drop>(&self, _value: D) -> io::Result<()> {
        Ok(())
    }

    fn println<D: Display + Drop>(&self, _value: D) -> io::Result<()> {
        Ok(())
    }

    fn write_all(&self, _bytes: &[u8]) -> io::Result<()> {
        Ok(())
    }
}

impl StandardError for Terminal {
    type Stream = Terminal;

    fn standard_error(&self) -> Terminal {
        *self
    }
}

/// Asserts of error streams, each of which takes so many bytes of a piece and flushes or not, what a sink over it answers.
fn fails(rt: &impl Abort, streams: &[(usize, bool, Option<usize>)]) {
    for (takes, flushes, wanted) in streams {
        let terminal = Terminal {
            takes: *takes,
            flushes: *flushes,
        };
        equal(
            rt,
            pushed(&mut StreamSink::err(&terminal), b"piece"),
            *wanted,
            "a stream",
        );
    }
}

#[test]
fn a_stream_sink_fails_where_nothing_is_taken_or_flushed(rt: HostRuntime) {
    let streams = [
        (3, true, Some(3)),
        (9, true, Some(5)),
        (0, true, None),
        (3, false, None),
    ];
    fails(&rt, &streams);
}
