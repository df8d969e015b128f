ghost use Rattle.std.specs.Prelude.{◌≡◌, ◌≤◌, ◌<◌, ℕ, List, Option, IfOk, IfSome, length, true, false};
ghost use Rattle.ucq_outside.specs.Causes.{HasCause};
ghost use Rattle.ucq_outside.specs.Edges.{files_after, stream_after, untold};
ghost use Rattle.ucq_outside.specs.inner.Files.{IsPiece, TakesPiece};

use crate::files::{Failed, Shelf, Sink};
use std::io::{Read, Seek, SeekFrom, Stderr, Write};
use std::marker::Model;
use std::rt::Files;
use std::{fs, io};

/// A file that stands open between two pulls, and the place of its next byte.
#[derive(Drop)]
struct Opened<F> {
    name: Option<String>,
    file: F,
    next: u64,
}

impl<F> Opened<F> {
    fn is_named(&self, name: &str) -> bool {
        match &self.name {
            Some(own) => own.as_str() == name,
            None => false,
        }
    }
}

fn open<R: Files + AllocGlobal>(rt: &R, name: &str) -> io::Result<Opened<R::File>> {
    let file = fs::open(rt, name)?;

    // Without memory for its name the file is opened again at the next pull.
    let name = String::from_str(rt.alloc(), name).ok();
    Ok(Opened {
        name,
        file,
        next: 0,
    })
}

fn read_from<F: Read + Seek>(
    opened: &mut Opened<F>,
    place: u64,
    into: &mut [u8],
) -> io::Result<usize>
    ensures { IfOk result (λ n. n ≤ length into.new) }
{
    // A pipe can't seek, and at its next byte needn't.
    if opened.next != place {
        opened.file.seek(SeekFrom::Start(place))?;
    }
    let n = opened.file.read(into)?;
    opened.next = place.saturating_add(n as u64);
    Ok(n)
}

fn read_named<R: Files + AllocGlobal>(
    rt: &R,
    last: &mut Option<Opened<R::File>>,
    name: &str,
    place: u64,
    into: &mut [u8],
) -> io::Result<usize>
    ensures { IfOk result (λ n. n ≤ length into.new) }
{
    let mut opened = match last.take() {
        Some(opened) if opened.is_named(name) => opened,
        _ => open(rt, name)?,
    };
    let n = read_from(&mut opened, place, into)?;

    // At its end a file is closed.
    if n > 0 {
        *last = Some(opened);
    }
    Ok(n)
}

/// The files of the system. It tells nothing of their bytes, which a clause can't know.
///
/// The file of the last pull stands open until its end or a pull of another, so reading on in it is one system call.
#[derive(Drop)]
pub struct FileShelf<'r, R: Files> {
    rt: &'r R,
    last: Option<Opened<R::File>>,
    faults: u64,
}

impl<'r, R: Files> Model for FileShelf<'r, R> {
    ghost use Rattle.ucq_outside.specs.Edges.{SystemFiles};

    ghost Value = { SystemFiles };

    ghost view = { λ s. record { faults = s.faults } };
}

impl<'r, R: Files> FileShelf<'r, R> {
    /// The files that this runtime reaches.
    pub fn new(rt: &'r R) -> FileShelf<'r, R>
        ensures { result ≡ record { faults = 0 } }
    {
        FileShelf {
            rt,
            last: None,
            faults: 0,
        }
    }
}

impl<R: Files + AllocGlobal> Shelf for FileShelf<'_, R> {
    ghost held = { λ s name. untold };

    ghost faults = { λ s. s.faults };

    /// Reads once. `Failed` stands for each error of the system: no such file, a folder, no permission, a failed read.
    fn pull(&mut self, name: &str, place: u64, into: &mut [u8]) -> Result<usize, Failed>
        ensures after { self.new ≡ files_after result self.old }

        // What each shelf ensures.
        ensures bound { IfOk result (λ n. n ≤ length into.new) }
        ensures bytes { IfOk result (λ n. IfSome untold (λ file. IsPiece file place n into.new)) }
        ensures held { (n : List ℕ) → untold ≡ untold }
        ensures cause { HasCause self.old.faults self.new.faults result }
    {
        match read_named(self.rt, &mut self.last, name, place, into) {
            Ok(n) => Ok(n),
            Err(_) => {
                self.faults = self.faults.saturating_add(1);
                Err(Failed)
            }
        }
    }
}

/// A runtime with an error stream that takes bytes, which need not be text.
pub trait StandardError {
    /// The error stream.
    type Stream: Write + Drop;

    /// The error stream, unbuffered.
    fn standard_error(&self) -> Self::Stream;
}

impl StandardError for HostRuntime {
    type Stream = Stderr;

    fn standard_error(&self) -> Stderr {
        self.stderr()
    }
}

fn write_once<W: Write>(stream: &mut W, piece: &[u8]) -> io::Result<usize>
    ensures { IfOk result (λ n. n ≤ length piece.now) }
{
    let n = stream.write(piece)?;
    stream.flush()?;
    Ok(n)
}

/// A standard stream. It tells nothing of the bytes that it took, which a clause can't know.
#[derive(Drop)]
pub struct StreamSink<'r, R> {
    rt: &'r R,
    is_error: bool,
    faults: u64,
}

impl<'r, R> Model for StreamSink<'r, R> {
    ghost use Rattle.ucq_outside.specs.Edges.{SystemStream};

    ghost Value = { SystemStream };

    ghost view = { λ s. record { is_error = s.is_error; faults = s.faults } };
}

impl<'r, R: Print + StandardError> StreamSink<'r, R> {
    /// The standard output.
    pub fn out(rt: &'r R) -> StreamSink<'r, R>
        ensures { result ≡ record { is_error = false; faults = 0 } }
    {
        StreamSink {
            rt,
            is_error: false,
            faults: 0,
        }
    }

    /// The standard error.
    pub fn err(rt: &'r R) -> StreamSink<'r, R>
        ensures { result ≡ record { is_error = true; faults = 0 } }
    {
        StreamSink {
            rt,
            is_error: true,
            faults: 0,
        }
    }
}

fn write_to<R: Print + StandardError>(rt: &R, is_error: bool, piece: &[u8]) -> io::Result<usize>
    ensures { IfOk result (λ n. n ≤ length piece.now) }
{
    if is_error {
        return write_once(&mut rt.standard_error(), piece);
    }
    write_once(&mut io::writer(rt), piece)
}

impl<R: Print + StandardError> Sink for StreamSink<'_, R> {
    ghost taken = { λ s. untold };

    ghost faults = { λ s. s.faults };

    /// Writes once and flushes. `Failed` stands for each error of the system, and for a write that takes nothing of a
    /// nonempty piece.
    fn push(&mut self, piece: &[u8]) -> Result<usize, Failed>
        ensures after { self.new ≡ stream_after result self.old }

        // What each sink ensures.
        ensures bound { IfOk result (λ n. n ≤ length piece.now) }
        ensures some { IfOk result (λ n. 0 < length piece.now → 0 < n) }
        ensures taken { TakesPiece untold untold piece.now result }
        ensures cause { HasCause self.old.faults self.new.faults result }
    {
        match write_to(self.rt, self.is_error, piece) {
            Ok(n) if n > 0 || piece.is_empty() => Ok(n),
            _ => {
                self.faults = self.faults.saturating_add(1);
                Err(Failed)
            }
        }
    }
}
