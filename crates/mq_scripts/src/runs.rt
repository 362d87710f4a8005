//! A run of a script over the objects in memory.

use crate::gates::Meeting;
use crate::heads::{ask, count, failing, piece};
use mq_io::{BytesSource, MapShelf, VecSink};
use mq_values::Memory;
use std::alloc::Global;
use std::thread::Threads;

/// What a run has written, its status, and how many pieces of its work have met.
#[derive(Drop)]
pub(crate) struct Done {
    pub sink: VecSink,
    pub status: u8,
    pub met: u64,
}

/// Runs a script as the head of its row asks, over those of the files that it names.
pub(crate) fn run_script<R: Threads + Sync>(
    rt: &R,
    alloc: Global,
    head: &str,
    bytes: Vec<u8>,
    files: &[(String, Vec<u8>)],
) -> Result<Done, Memory> {
    let words = words_of(alloc, head)?;
    let failing = failing_calls(alloc, head, "source")?;
    let mut source = BytesSource::new(bytes, failing, piece(head, "source"));
    let mut shelf = shelf_of(alloc, head, files)?;
    let failing = failing_calls(alloc, head, "sink")?;
    let sink = VecSink::new(alloc, failing, piece(head, "sink"));
    let gate = Meeting::new(count(head, "meet", 0) as u64);
    Ok(run_over(rt, alloc, &words, &mut source, &mut shelf, sink, &gate))
}

fn run_over<R: Threads + Sync>(
    rt: &R,
    alloc: Global,
    words: &[String],
    source: &mut BytesSource,
    shelf: &mut MapShelf,
    sink: VecSink,
    gate: &Meeting,
) -> Done {
    let mut sink = sink;
    let status = mq_run::run(rt, alloc, words, source, shelf, &mut sink, gate);
    let met = gate.met();
    Done { sink, status, met }
}

// The files that the head names, with commas between them, on a shelf that fails where the head says so.
fn shelf_of(alloc: Global, head: &str, files: &[(String, Vec<u8>)]) -> Result<MapShelf, Memory> {
    let mut named = Vec::new(alloc);
    if let Some(text) = ask(head, "files") {
        for name in text.split(',') {
            add_file(alloc, name, files, &mut named)?;
        }
    }
    Ok(MapShelf::new(named, one_call(alloc, count(head, "shelf", 0) as u64)?))
}

fn add_file(
    alloc: Global,
    name: &str,
    files: &[(String, Vec<u8>)],
    named: &mut Vec<(String, Vec<u8>)>,
) -> Result<(), Memory> {
    for (known, bytes) in files {
        if known.as_str() == name {
            named.push((String::from_str(alloc, name)?, bytes.clone()?))?;
        }
    }
    Ok(())
}

// The words of the command line, with commas between them.
fn words_of(alloc: Global, head: &str) -> Result<Vec<String>, Memory> {
    let mut words = Vec::new(alloc);
    if let Some(text) = ask(head, "words") {
        for word in text.split(',') {
            words.push(String::from_str(alloc, word)?)?;
        }
    }
    Ok(words)
}

fn failing_calls(alloc: Global, head: &str, wanted: &str) -> Result<Vec<u64>, Memory> {
    one_call(alloc, failing(head, wanted))
}

// The number of the call that fails; none for 0.
fn one_call(alloc: Global, number: u64) -> Result<Vec<u64>, Memory> {
    let mut calls = Vec::new(alloc);
    if number > 0 {
        calls.push(number)?;
    }
    Ok(calls)
}
