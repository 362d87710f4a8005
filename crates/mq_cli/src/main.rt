//! Runs a script of SQL statements. The script's bytes go in from standard input, files from the current folder.
//! Out come the lines of each statement on standard output, and the status of the run.
//! What a script prints is defined by mq_tool, specs/Script.
#![tactic(auto)]

use mq_io::{FolderShelf, OpenGate, ReaderSource, WriterSink};
use mq_run::run;
use mq_tool::{BAD_WORDS, NO_MEMORY};
use std::io::ErrorKind;
use std::process::ExitCode;
use std::{env, io};

fn main(rt: HostRuntime) -> ExitCode {
    let args = match env::args(&rt) {
        Ok(args) => args,
        Err(error) => return ExitCode::from(without_words(error.kind())),
    };
    let alloc = rt.alloc();
    let Ok(words) = args.skip(1).collect::<Vec<String>>(alloc) else {
        return ExitCode::from(NO_MEMORY);
    };
    let mut script = ReaderSource::new(rt.reader());
    let mut files = FolderShelf::new(&rt, ".");
    let mut out = WriterSink::new(io::writer(&rt));
    let gate = OpenGate;
    let status = run(&rt, alloc, &words, &mut script, &mut files, &mut out, &gate);
    ExitCode::from(status)
}

// The status where the words can't be had: memory ran out, or one of them is no text.
fn without_words(kind: ErrorKind) -> u8 {
    match kind {
        ErrorKind::OutOfMemory => NO_MEMORY,
        _ => BAD_WORDS,
    }
}
