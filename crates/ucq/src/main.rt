//! The program: its words, the files and streams of the system, and one call.
#![tactic(auto)]

use std::process::ExitCode;
use std::{env, io};
use ucq_outside::{FileShelf, OpenGate, StreamSink};
use ucq_run::run;

/// The words after the program's name.
fn words_of(rt: &HostRuntime) -> io::Result<Vec<String>> {
    let mut args = env::args(rt)?;
    let _ = args.next();
    Ok(args.collect(rt.alloc())?)
}

/// The status where the system refuses the words.
fn status_of(error: &io::Error) -> u8 {
    match error.kind() {
        io::ErrorKind::OutOfMemory => 1,
        _ => 8,
    }
}

fn main(rt: HostRuntime) -> ExitCode {
    let words = match words_of(&rt) {
        Ok(words) => words,
        Err(error) => return ExitCode::from(status_of(&error)),
    };
    let mut shelf = FileShelf::new(&rt);
    let mut out = StreamSink::out(&rt);
    let mut err = StreamSink::err(&rt);
    let status = run(
        &rt,
        rt.alloc(),
        words.as_slice(),
        &mut shelf,
        &mut out,
        &mut err,
        &OpenGate,
    );
    ExitCode::from(status)
}
