//! A run of a generated script: the summary of its output is written in place of the output.

ghost use Rattle.std.specs.Prelude.{◌≡◌, ◌⊎◌, ◌<◌, ◌≤◌, List, Some, IfOk};
ghost use Rattle.std.specs.Io.KnownBytes.{Appends};
ghost use Rattle.mq_io.specs.Causes.{Rose};
ghost use Rattle.mq_io.specs.Progress.{AppendsFront};
ghost use Rattle.mq_ir.specs.Lines.{Line};
ghost use Rattle.mq_generate.specs.Script.{script_of};
ghost use Rattle.mq_answers.specs.declared.workers.TheConstants.{MAX_WORKERS};
ghost use Rattle.mq_tool.specs.Script.{IsOutput, IsWhole, status_of};
ghost use Rattle.mq_tool.specs.Loads.{no_files};
ghost use Rattle.mq_tool.specs.Summary.{IsSummaryOf, summary_text};

use crate::scripts::run_statements;
use crate::statuses::{DONE, FLAWED, NO_MEMORY, WRITE_FAILED};
use crate::stops::Halt;
use mq_generate::{SummarySink, generated, scripts_are_text};
use mq_io::{Fetched, Gate, IoFault, Shelf, Sink, write_all};
use mq_lexer::{statements, tokens};
use mq_values::Memory;
use std::alloc::Global;
use std::thread::Threads;

// A shelf without files.
#[derive(Drop)]
struct NoFiles;

impl Shelf for NoFiles {
    ghost files = { λ _. Some no_files };

    ghost faults = { λ _. 0 };

    fn fetch(&mut self, _name: &str, _limit: u32) -> Result<Fetched, IoFault> {
        Ok(Fetched::Absent)
    }
}

// The summary of an output, and whether some line of it was an error or a fault.
#[derive(Drop)]
pub(crate) struct Summary {
    pub text: Vec<u8>,
    pub flaw: bool,
}

/// Runs the script that the number and the size generate, with so many workers, over no files, and writes the summary of its
/// output. The answer is the status of the run (docs/LANGUAGE.md, "The generated script").
pub fn run_generated<R: Threads + Sync, K: Sink, G: Gate>(
    rt: &R,
    alloc: Global,
    workers: u32,
    number: u32,
    size: u32,
    out: &mut K,
    gate: &G,
) -> u8
    requires workers { (1 ≤ workers) × (workers ≤ MAX_WORKERS) }
    requires size { 0 < size }
    ensures range { IsWhole result ⊎ (result ≡ WRITE_FAILED) ⊎ (result ≡ NO_MEMORY) }
    ensures write_failed { result ≡ WRITE_FAILED → Rose (K.faults out.old) (K.faults out.new) }
    ensures done { IsWhole result → (lines : List Line) × IsOutput no_files (script_of number size) lines
        × Appends (K.taken out.old) (K.taken out.new) (summary_text number size lines) × (result ≡ status_of lines) }
    ensures cut_short { (result ≡ WRITE_FAILED) ⊎ (result ≡ NO_MEMORY) → (lines : List Line) → IsOutput no_files (script_of number size) lines
        → AppendsFront (K.taken out.old) (K.taken out.new) (summary_text number size lines) }
{
    let Ok(summary) = generated_summary(rt, alloc, workers, number, size, gate) else {
        return NO_MEMORY;
    };
    match write_all(out, &summary.text) {
        Ok(()) if summary.flaw => FLAWED,
        Ok(()) => DONE,
        Err(IoFault::Failed) => WRITE_FAILED,
        Err(IoFault::Memory) => NO_MEMORY,
    }
}

// The summary of the script that the number and the size generate.
fn generated_summary<R: Threads + Sync, G: Gate>(
    rt: &R,
    alloc: Global,
    workers: u32,
    number: u32,
    size: u32,
    gate: &G,
) -> Result<Summary, Memory>
    requires workers { (1 ≤ workers) × (workers ≤ MAX_WORKERS) }
    requires size { 0 < size }
    ensures { IfOk result (IsSummaryOf (script_of number size)) }
{
    scripts_are_text();
    let script = generated(alloc, number, size)?;
    match str::from_utf8(&script) {
        Ok(text) => summary_of(rt, alloc, workers, text, gate),
        Err(_) => unreachable!(),
    }
}

// The summary of the script of this text.
fn summary_of<R: Threads + Sync, G: Gate>(
    rt: &R,
    alloc: Global,
    workers: u32,
    text: &str,
    gate: &G,
) -> Result<Summary, Memory>
    requires { (1 ≤ workers) × (workers ≤ MAX_WORKERS) }
    ensures { IfOk result (IsSummaryOf text.now) }
{
    let tokens = tokens(alloc, text)?;
    let statements = statements(alloc, &tokens)?;
    let mut sink = SummarySink::new(alloc);
    match run_statements(
        rt,
        alloc,
        workers,
        &statements,
        &mut NoFiles,
        &mut sink,
        gate,
    ) {
        Ok(flaw) => {
            let mut text = Vec::new(alloc);
            sink.summary(statements.len() as u64, &mut text)?;
            Ok(Summary { text, flaw })
        }
        Err(Halt::Memory) => Err(Memory),
        Err(Halt::ReadFailed | Halt::WriteFailed) => unreachable!(),
    }
}
