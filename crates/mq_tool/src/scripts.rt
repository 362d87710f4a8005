//! A run of one script: from its bytes to its output and its status.

ghost use Rattle.std.specs.Prelude.{◌≡◌, ◌≢◌, ◌↔◌, ◌⊎◌, ◌+◌, ◌≤◌, ◌||◌, List, Some, length, map, IfOk, IfSome, OnErr, IsErrOf, IsUtf8};
ghost use Rattle.std.specs.Io.KnownBytes.{Appends, IsAtEnd};
ghost use Rattle.mq_io.specs.Causes.{Rose};
ghost use Rattle.mq_io.specs.Progress.{AppendsFront, GaveAtMost, GaveMore};
ghost use Rattle.mq_lexer.specs.Statements as lexer;
ghost use Rattle.mq_lexer.specs.Tokens as scanner;
ghost use Rattle.mq_ir.specs.Lines.{Line, text_of};
ghost use Rattle.mq_answers.specs.declared.workers.TheConstants.{MAX_WORKERS};
ghost use Rattle.mq_tool.specs.declared.statuses.TheConstants.{BAD_WORDS};
ghost use Rattle.mq_tool.specs.Loads.{FileMap};
ghost use Rattle.mq_tool.specs.Script.{IsOutput, IsScript, IsStatus, IsWhole, StoppedAtLoad, StopsAtLoad, status_of};
ghost use Rattle.mq_tool.specs.Steps.{CutShort, IsLoadAt, Writes, WritesAll, WritesFront};

use crate::statuses::{DONE, FLAWED, NO_MEMORY, NOT_UTF8, READ_FAILED, TOO_LONG, WRITE_FAILED};
use crate::step::do_statement;
use crate::stops::Halt;
use mq_engine::Engine;
use mq_io::{Gate, IoFault, READ_SIZE, ReadFault, Shelf, Sink, Source, read_all, write_all};
use mq_lexer::{Rest, Statement, as_statement, next_part};
use mq_values::MAX_SCRIPT_BYTES;
use std::alloc::Global;
use std::thread::Threads;

/// Reads the whole script, runs it statement by statement, and writes each statement's lines before the next one starts.
/// The answer is the status of the run (docs/LANGUAGE.md, "Statuses").
pub fn run_script<R: Threads + Sync, S: Source, F: Shelf, K: Sink, G: Gate>(
    rt: &R,
    alloc: Global,
    workers: u32,
    script: &mut S,
    files: &mut F,
    out: &mut K,
    gate: &G,
) -> u8
    requires { (1 ≤ workers) × (workers ≤ MAX_WORKERS) }
    ensures files { F.files files.new ≡ F.files files.old }
    ensures range { (result ≢ BAD_WORDS) × IsStatus result }
    ensures read_failed { result ≡ READ_FAILED
        → ((Rose (S.faults script.old) (S.faults script.new)) × (out.new ≡ out.old))
        ⊎ ((Rose (F.faults files.old) (F.faults files.new)) × IfSome (S.left script.old) (λ b. IfSome (F.files files.old)
        (λ told. StopsAtLoad told b (K.taken out.old) (K.taken out.new)))) }
    ensures write_failed { result ≡ WRITE_FAILED → Rose (K.faults out.old) (K.faults out.new) }
    ensures nothing { (result ≡ TOO_LONG) ⊎ (result ≡ NOT_UTF8) → out.new ≡ out.old }
    ensures end { IsWhole result ⊎ (result ≡ NOT_UTF8) → IsAtEnd (S.left script.new) }
    ensures stops { GaveAtMost (MAX_SCRIPT_BYTES + READ_SIZE) (S.left script.old) (S.left script.new) }
    ensures too_long { IfSome (S.left script.old)
        (λ b. (result ≡ TOO_LONG) ↔ GaveMore MAX_SCRIPT_BYTES (Some b) (S.left script.new)) }
    ensures not_utf8 { result ≡ NOT_UTF8 → IfSome (S.left script.old)
        (λ b. (length b ≤ MAX_SCRIPT_BYTES) × ¬ IsUtf8 b) }
    ensures is_script { IsWhole result ⊎ (result ≡ WRITE_FAILED) → IfSome (S.left script.old) IsScript }
    ensures done { IsWhole result → IfSome (S.left script.old) (λ b. IfSome (F.files files.old) (λ told. (lines : List Line) × IsOutput told b lines
        × Appends (K.taken out.old) (K.taken out.new) (text_of lines) × (result ≡ status_of lines))) }
    ensures cut_short { (result ≡ WRITE_FAILED) ⊎ (result ≡ NO_MEMORY) → IfSome (S.left script.old) (λ b. IfSome (F.files files.old) (λ told.
        (lines : List Line) → IsOutput told b lines → AppendsFront (K.taken out.old) (K.taken out.new) (text_of lines))) }
    ensures no_script { result ≡ NO_MEMORY → IfSome (S.left script.old) (λ b. ¬ IsScript b → out.new ≡ out.old) }
    ensures complete { ¬ Rose (S.faults script.old) (S.faults script.new) → ¬ Rose (F.faults files.old) (F.faults files.new)
        → ¬ Rose (K.faults out.old) (K.faults out.new)
        → IfSome (S.left script.old) (λ b. IsScript b → IsWhole result ⊎ (result ≡ NO_MEMORY)) }
{
    match read_all(alloc, script, MAX_SCRIPT_BYTES) {
        Ok(bytes) => run_bytes(rt, alloc, workers, &bytes, files, out, gate),
        Err(ReadFault::TooLong) => TOO_LONG,
        Err(ReadFault::Failed) => READ_FAILED,
        Err(ReadFault::Memory) => NO_MEMORY,
    }
}

// Runs the script of these bytes.
fn run_bytes<R: Threads + Sync, F: Shelf, K: Sink, G: Gate>(
    rt: &R,
    alloc: Global,
    workers: u32,
    bytes: &[u8],
    files: &mut F,
    out: &mut K,
    gate: &G,
) -> u8
    requires { (1 ≤ workers) × (workers ≤ MAX_WORKERS) }
    ensures range { IsWhole result ⊎ (result ≡ READ_FAILED) ⊎ (result ≡ WRITE_FAILED) ⊎ (result ≡ NO_MEMORY) ⊎ (result ≡ NOT_UTF8) }
    ensures files { F.files files.new ≡ F.files files.old }
    ensures read_failed { result ≡ READ_FAILED → Rose (F.faults files.old) (F.faults files.new) }
    ensures stopped { result ≡ READ_FAILED → (told : FileMap) → F.files files.old ≡ Some told
        → StopsAtLoad told bytes.now (K.taken out.old) (K.taken out.new) }
    ensures write_failed { result ≡ WRITE_FAILED → Rose (K.faults out.old) (K.faults out.new) }
    ensures not_utf8 { result ≡ NOT_UTF8 → (out.new ≡ out.old) × ¬ IsUtf8 bytes.now }
    ensures is_utf8 { result ≢ NOT_UTF8 → IsUtf8 bytes.now }
    ensures done { IsWhole result → (told : FileMap) → F.files files.old ≡ Some told → (lines : List Line) × IsOutput told bytes.now lines
        × Appends (K.taken out.old) (K.taken out.new) (text_of lines) × (result ≡ status_of lines) }
    ensures cut_short { (result ≡ WRITE_FAILED) ⊎ (result ≡ NO_MEMORY) → (told : FileMap) → F.files files.old ≡ Some told → (lines : List Line)
        → IsOutput told bytes.now lines → AppendsFront (K.taken out.old) (K.taken out.new) (text_of lines) }
{
    match str::from_utf8(bytes) {
        Ok(text) => match run_text(rt, alloc, workers, text, files, out, gate) {
            Ok(true) => FLAWED,
            Ok(false) => DONE,
            Err(Halt::ReadFailed) => READ_FAILED,
            Err(Halt::WriteFailed) => WRITE_FAILED,
            Err(Halt::Memory) => NO_MEMORY,
        },
        Err(_) => NOT_UTF8,
    }
}

// Runs the script of this text, whose tokens are made a statement at a time, and answers whether some line was an error or a
// fault.
fn run_text<R: Threads + Sync, F: Shelf, K: Sink, G: Gate>(
    rt: &R,
    alloc: Global,
    workers: u32,
    text: &str,
    files: &mut F,
    out: &mut K,
    gate: &G,
) -> Result<bool, Halt>
    requires { (1 ≤ workers) × (workers ≤ MAX_WORKERS) }
    ensures done { IfOk result (λ flaw. (told : FileMap) → F.files files.old ≡ Some told →
        WritesAll told (lexer.statements (scanner.tokens text.now)) (K.taken out.old) (K.taken out.new) flaw) }
    ensures cut_short { OnErr result ((told : FileMap) → F.files files.old ≡ Some told →
        WritesFront told (lexer.statements (scanner.tokens text.now)) (K.taken out.old) (K.taken out.new)) }
    ensures stopped { IsErrOf result Halt.ReadFailed → (told : FileMap) → F.files files.old ≡ Some told →
        StoppedAtLoad told (lexer.statements (scanner.tokens text.now)) (K.taken out.old) (K.taken out.new) }
    ensures files { F.files files.new ≡ F.files files.old }
    ensures read_failed { IsErrOf result Halt.ReadFailed → Rose (F.faults files.old) (F.faults files.new) }
    ensures write_failed { IsErrOf result Halt.WriteFailed → Rose (K.faults out.old) (K.faults out.new) }
{
    let mut engine = Engine::new(alloc, workers);
    let mut lines = Vec::new(alloc);
    let mut tokens = Vec::new(alloc);
    let mut rest = Rest::of(text);
    let mut flaw = false;
    while !rest.text.is_empty() {
        tokens.clear();
        let Ok(left) = next_part(&mut tokens, rest) else {
            return Err(Halt::Memory);
        };
        rest = left;
        if let Some(statement) = as_statement(&tokens) {
            let found = run_statement(
                rt,
                alloc,
                &mut engine,
                &statement,
                &mut lines,
                files,
                out,
                gate,
            )?;
            flaw = either(flaw, found);
        }
    }
    Ok(flaw)
}

/// Runs statements, one after another, from no table and no view on, and answers whether some line was an error or a
/// fault.
pub(crate) fn run_statements<R: Threads + Sync, F: Shelf, K: Sink, G: Gate>(
    rt: &R,
    alloc: Global,
    workers: u32,
    statements: &[Statement<'_, '_>],
    files: &mut F,
    out: &mut K,
    gate: &G,
) -> Result<bool, Halt>
    requires { (1 ≤ workers) × (workers ≤ MAX_WORKERS) }
    ensures done { IfOk result (λ flaw. (told : FileMap) → F.files files.old ≡ Some told →
        WritesAll told (map lexer.statement statements.now) (K.taken out.old) (K.taken out.new) flaw) }
    ensures cut_short { OnErr result ((told : FileMap) → F.files files.old ≡ Some told →
        WritesFront told (map lexer.statement statements.now) (K.taken out.old) (K.taken out.new)) }
    ensures stopped { IsErrOf result Halt.ReadFailed → (told : FileMap) → F.files files.old ≡ Some told →
        StoppedAtLoad told (map lexer.statement statements.now) (K.taken out.old) (K.taken out.new) }
    ensures files { F.files files.new ≡ F.files files.old }
    ensures later_files { F.faults files.old ≤ F.faults files.new }
    ensures later { K.faults out.old ≤ K.faults out.new }
    ensures read_failed { IsErrOf result Halt.ReadFailed → Rose (F.faults files.old) (F.faults files.new) }
    ensures write_failed { IsErrOf result Halt.WriteFailed → Rose (K.faults out.old) (K.faults out.new) }
{
    let mut engine = Engine::new(alloc, workers);
    let mut lines = Vec::new(alloc);
    let mut flaw = false;
    'statements: for statement in statements {
        let found = run_statement(
            rt,
            alloc,
            &mut engine,
            statement,
            &mut lines,
            files,
            out,
            gate,
        )?;
        flaw = either(flaw, found);
    }
    Ok(flaw)
}

fn either(a: bool, b: bool) -> bool
    ensures { result ≡ (a || b) }
{
    a || b
}

// Runs a statement and writes its lines.
fn run_statement<R: Threads + Sync, F: Shelf, K: Sink, G: Gate>(
    rt: &R,
    alloc: Global,
    engine: &mut Engine,
    statement: &Statement<'_, '_>,
    lines: &mut Vec<u8>,
    files: &mut F,
    out: &mut K,
    gate: &G,
) -> Result<bool, Halt>
    ensures done { IfOk result (Writes (lexer.statement statement.now) (F.files files.old) engine.old engine.new (K.taken out.old) (K.taken out.new)) }
    ensures cut_short { OnErr result (CutShort (lexer.statement statement.now) (F.files files.old) engine.old (K.taken out.old) (K.taken out.new)) }
    ensures stopped { IsErrOf result Halt.ReadFailed → (out.new ≡ out.old) × IsLoadAt (lexer.statement statement.now) engine.old }
    ensures files { F.files files.new ≡ F.files files.old }
    ensures later_files { F.faults files.old ≤ F.faults files.new }
    ensures later { K.faults out.old ≤ K.faults out.new }
    ensures read_failed { IsErrOf result Halt.ReadFailed → Rose (F.faults files.old) (F.faults files.new) }
    ensures write_failed { IsErrOf result Halt.WriteFailed → Rose (K.faults out.old) (K.faults out.new) }
{
    lines.clear();
    match do_statement(rt, alloc, engine, statement, files, lines, gate) {
        Ok(flaw) => match write_all(out, lines) {
            Ok(()) => Ok(flaw),
            Err(IoFault::Failed) => Err(Halt::WriteFailed),
            Err(IoFault::Memory) => Err(Halt::Memory),
        },
        Err(IoFault::Failed) => Err(Halt::ReadFailed),
        Err(IoFault::Memory) => Err(Halt::Memory),
    }
}
