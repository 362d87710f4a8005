//! A whole run: from the words of the command line to the output and the status.

ghost use Rattle.std.specs.Prelude.{◌≡◌, ◌↔◌, ◌⊎◌, ◌+◌, ◌≤◌, ℕ, List, None, Some, length, map, string_bytes, IfSome, IsUtf8};
ghost use Rattle.std.specs.Io.KnownBytes.{Appends, IsAtEnd};
ghost use Rattle.mq_io.specs.Causes.{Rose};
ghost use Rattle.mq_io.specs.Progress.{AppendsFront, GaveAtMost, GaveMore};
ghost use Rattle.mq_ir.specs.Lines.{Line, text_of};
ghost use Rattle.mq_generate.specs.Script.{script_of};
ghost use Rattle.mq_run.specs.declared.commands.Command.TheVariants as command;
ghost use Rattle.mq_run.specs.Commands.{RunsScript, command_of as asked};
ghost use Rattle.mq_tool.specs.Script.{IsOutput, IsScript, IsStatus, IsWhole, StopsAtLoad, status_of};
ghost use Rattle.mq_tool.specs.Loads.{no_files};
ghost use Rattle.mq_tool.specs.Summary.{summary_text};

use crate::commands::{Command, DEFAULT_WORKERS, command_of};
use mq_io::{Gate, READ_SIZE, Shelf, Sink, Source};
use mq_tool::{
    BAD_WORDS, NO_MEMORY, NOT_UTF8, READ_FAILED, TOO_LONG, WRITE_FAILED, run_generated, run_script,
};
use mq_values::MAX_SCRIPT_BYTES;
use std::alloc::Global;
use std::thread::Threads;

/// Does what the words ask for: reads the whole script, runs it statement by statement, and writes each statement's lines
/// before the next one starts; or runs a generated script, and writes a summary of its output. The answer is the status of
/// the program (docs/LANGUAGE.md, "Statuses"): `DONE` and `FLAWED` where all was done, `BAD_WORDS` for words that are not
/// known, `READ_FAILED` where the source failed, or the shelf at a LOAD, `WRITE_FAILED` where the sink failed, `NO_MEMORY`
/// for want of memory, `TOO_LONG` for a script that is too long, `NOT_UTF8` for one that is not UTF-8.
pub fn run<R: Threads + Sync, S: Source, F: Shelf, K: Sink, G: Gate>(
    rt: &R,
    alloc: Global,
    words: &[String],
    script: &mut S,
    files: &mut F,
    out: &mut K,
    gate: &G,
) -> u8
    // Words that are not known, at which nothing is read or written. A generated script reads nothing.
    ensures words { (result ≡ BAD_WORDS) ↔ (asked (map string_bytes words.now) ≡ None) }
    ensures unwritten { result ≡ BAD_WORDS → out.new ≡ out.old }
    ensures unread { ¬ RunsScript (map string_bytes words.now) → (script.new ≡ script.old) × (files.new ≡ files.old) }
    ensures files { F.files files.new ≡ F.files files.old }
    ensures range { IsStatus result }

    // What failed, and what was written then: nothing, or all lines of the statements before a LOAD.
    ensures read_failed { result ≡ READ_FAILED
        → ((Rose (S.faults script.old) (S.faults script.new)) × (out.new ≡ out.old))
        ⊎ ((Rose (F.faults files.old) (F.faults files.new)) × IfSome (S.left script.old) (λ b. IfSome (F.files files.old)
        (λ told. StopsAtLoad told b (K.taken out.old) (K.taken out.new)))) }
    ensures write_failed { result ≡ WRITE_FAILED → Rose (K.faults out.old) (K.faults out.new) }
    ensures nothing { (result ≡ TOO_LONG) ⊎ (result ≡ NOT_UTF8) → out.new ≡ out.old }

    // The source is read to its end, or by at most one buffer past the limit.
    ensures end { RunsScript (map string_bytes words.now) → IsWhole result ⊎ (result ≡ NOT_UTF8) → IsAtEnd (S.left script.new) }
    ensures stops { GaveAtMost (MAX_SCRIPT_BYTES + READ_SIZE) (S.left script.old) (S.left script.new) }

    // Where the source tells its bytes: which of them are no script.
    ensures too_long { IfSome (S.left script.old)
        (λ b. (result ≡ TOO_LONG) ↔ GaveMore MAX_SCRIPT_BYTES (Some b) (S.left script.new)) }
    ensures not_utf8 { result ≡ NOT_UTF8 → IfSome (S.left script.old)
        (λ b. (length b ≤ MAX_SCRIPT_BYTES) × ¬ IsUtf8 b) }
    ensures is_script { RunsScript (map string_bytes words.now) → IsWhole result ⊎ (result ≡ WRITE_FAILED) → IfSome (S.left script.old) IsScript }

    // What is written, where the source and the shelf tell their bytes: the output of the script over the files, or a front of
    // it where the run was cut short, and nothing of bytes that are no script.
    ensures done { RunsScript (map string_bytes words.now) → IsWhole result → IfSome (S.left script.old) (λ b. IfSome (F.files files.old) (λ told.
        (lines : List Line) × IsOutput told b lines × Appends (K.taken out.old) (K.taken out.new) (text_of lines) × (result ≡ status_of lines))) }
    ensures cut_short { RunsScript (map string_bytes words.now) → (result ≡ WRITE_FAILED) ⊎ (result ≡ NO_MEMORY)
        → IfSome (S.left script.old) (λ b. IfSome (F.files files.old) (λ told.
        (lines : List Line) → IsOutput told b lines → AppendsFront (K.taken out.old) (K.taken out.new) (text_of lines))) }
    ensures no_script { RunsScript (map string_bytes words.now) → result ≡ NO_MEMORY
        → IfSome (S.left script.old) (λ b. ¬ IsScript b → out.new ≡ out.old) }

    // A script is run to its end, unless a count rose or memory ran out.
    ensures complete { RunsScript (map string_bytes words.now)
        → ¬ Rose (S.faults script.old) (S.faults script.new) → ¬ Rose (F.faults files.old) (F.faults files.new)
        → ¬ Rose (K.faults out.old) (K.faults out.new)
        → IfSome (S.left script.old) (λ b. IsScript b → IsWhole result ⊎ (result ≡ NO_MEMORY)) }

    // What is written of a generated script: the summary of its output, or a front of it where the run was cut short.
    ensures summary { (number : ℕ) (size : ℕ) → asked (map string_bytes words.now) ≡ Some (command.Generated number size) → IsWhole result
        → (lines : List Line) × IsOutput no_files (script_of number size) lines
        × Appends (K.taken out.old) (K.taken out.new) (summary_text number size lines) × (result ≡ status_of lines) }
    ensures summary_cut_short { (number : ℕ) (size : ℕ) → asked (map string_bytes words.now) ≡ Some (command.Generated number size)
        → (result ≡ WRITE_FAILED) ⊎ (result ≡ NO_MEMORY) → (lines : List Line) → IsOutput no_files (script_of number size) lines
        → AppendsFront (K.taken out.old) (K.taken out.new) (summary_text number size lines) }
    ensures summary_complete { ¬ RunsScript (map string_bytes words.now) → ¬ Rose (K.faults out.old) (K.faults out.new)
        → IsWhole result ⊎ (result ≡ NO_MEMORY) ⊎ (result ≡ BAD_WORDS) }
{
    match command_of(words) {
        Some(Command::Script(workers)) => run_script(rt, alloc, workers, script, files, out, gate),
        Some(Command::Generated(number, size)) => {
            run_generated(rt, alloc, DEFAULT_WORKERS, number, size, out, gate)
        }
        None => BAD_WORDS,
    }
}
