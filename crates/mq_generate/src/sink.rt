//! A sink that keeps a summary of the output in place of the output.
ghost use Rattle.std.specs.Prelude.{◌≡◌, ◌++◌, ◌<◌, ◌≤◌, length, [], Some, IfErr, IfOk, IfSome, IsErrOf, OnErr, OnOk, codes, count_by, option_map, unwrap_or};
ghost use Rattle.std.specs.Option.{option_or};
ghost use Rattle.std.specs.Io.{WritesAtMost};
ghost use Rattle.std.specs.Io.KnownBytes.{WriteAppends};
ghost use Rattle.mq_io.specs.Causes.{Rose};
ghost use Rattle.mq_generate.specs.Pieces.{BeginsWith};
ghost use Rattle.mq_generate.specs.Notes.{IsWithin, text_of};
ghost use Rattle.mq_generate.specs.Summary as spec;
ghost use Rattle.mq_generate.specs.Summary.{lines_of, summary_of};

use crate::lines::{Span, is_error, is_fault, is_row, line_text, note_lines};
use crate::pieces::{Piece, push_pieces};
use crate::told::Told;
use mq_io::{IoFault, Sink};
use mq_values::Memory;
use std::alloc::{AllocError, Global};
use std::marker::Model;

/// A sink that takes all that is written, never fails, and keeps what the summary of it needs: counts, the
/// last row, and the line that has begun. Clauses see it as the bytes that it has taken.
#[derive(Drop)]
pub struct SummarySink {
    alloc: Global,
    told: Told,
    errors: u64,
    faults: u64,
    size: u64,
    row: Option<Vec<u8>>,
    begun: Vec<u8>,
}

impl Model for SummarySink {
    ghost use Rattle.std.specs.Prelude.{ℕ, List};

    ghost Value = { List ℕ };

    ghost use Rattle.mq_generate.specs.Kept.{IsKept};

    ghost view = { λ s. s.told.bytes };

    ghost invariant = { IsKept };
}

impl SummarySink {
    /// A sink that has taken nothing. It takes no memory yet.
    pub fn new(alloc: Global) -> SummarySink
        ensures { result ≡ [] }
    {
        SummarySink {
            alloc,
            told: Told::new(),
            errors: 0,
            faults: 0,
            size: 0,
            row: None,
            begun: Vec::new(alloc),
        }
    }
}

impl SummarySink {
    /// Appends the summary of what was taken, the output of so many statements. After `Memory` `out` is as before.
    pub fn summary(&self, statements: u64, out: &mut Vec<u8>) -> Result<(), Memory>
        ensures ok { OnOk result (out.new.items ≡ out.old.items ++ summary_of statements self.now) }
        ensures err { OnErr result (out.new.items ≡ out.old.items) }
    {
        let before = out.len();
        match self.push_summary(statements, out) {
            Ok(()) => Ok(()),
            Err(wanted) => {
                out.truncate(before);
                Err(wanted)
            }
        }
    }

    #[tactic(auto, using(crate::proofs::PieceLemmas::fronts))]
    fn push_summary(&self, statements: u64, out: &mut Vec<u8>) -> Result<(), Memory>
        ensures ok { OnOk result (out.new.items ≡ out.old.items ++ summary_of statements self.now) }
        ensures front { BeginsWith out.new.items out.old.items }
    {
        push_pieces(
            &[
                Piece::Words("statements "),
                Piece::Number(statements),
                Piece::Words("\nerrors "),
                Piece::Number(self.error_count()),
                Piece::Words("\nfaults "),
                Piece::Number(self.fault_count()),
                Piece::Words("\nbytes "),
                Piece::Number(self.size),
                Piece::Words("\nlast "),
                Piece::Bytes(self.last_row()),
                Piece::Words("\n"),
            ],
            out,
        )
    }

    // How many lines are refusals, the one among them that has begun.
    fn error_count(&self) -> u64
        ensures { result ≡ count_by spec.is_error (lines_of self.now) }
    {
        self.errors + u64::from(is_error(&[], &self.begun))
    }

    // How many lines are faults, the one among them that has begun.
    fn fault_count(&self) -> u64
        ensures { result ≡ count_by spec.is_fault (lines_of self.now) }
    {
        self.faults + u64::from(is_fault(&[], &self.begun))
    }

    // The last row, or what stands in its place.
    fn last_row(&self) -> &[u8]
        ensures { result.now ≡ unwrap_or (spec.last_row (lines_of self.now)) (codes "-") }
    {
        if !self.begun.is_empty() && is_row(&[], &self.begun) {
            return &self.begun;
        }
        match &self.row {
            Some(row) => row,
            None => b"-".as_slice(),
        }
    }
}

impl Sink for SummarySink {
    ghost taken = { λ s. Some s };

    ghost faults = { λ _. 0 };

    /// Takes the whole piece. Where the count of the bytes has no room for more, memory is wanting.
    fn write(&mut self, piece: &[u8]) -> Result<usize, IoFault>
        ensures bound { WritesAtMost result piece.now }
        ensures bytes { WriteAppends (Some self.old) (Some self.new) result piece.now }
        ensures progress { 0 < length piece.now → IfOk result (λ n. 0 < n) }
        ensures later { 0 ≤ 0 }
        ensures failed { IsErrOf result IoFault.Failed → Rose 0 0 }

        // All of it is taken, unless memory runs out.
        ensures whole { IfOk result (λ n. n ≡ length piece.now) }
        ensures memory { IfErr result (λ fault. fault ≡ IoFault.Memory) }
    {
        let Some(size) = self.size.checked_add(piece.len() as u64) else {
            return Err(IoFault::Memory);
        };
        let notes = note_lines(&self.begun, piece);
        let row = row_text(self.alloc, &self.begun, piece, notes.row)?;
        let last = Span {
            start: notes.start,
            end: piece.len(),
        };
        self.begun = line_text(self.alloc, &self.begun, piece, last)?;
        replace_row(&mut self.row, row);
        self.errors += notes.errors;
        self.faults += notes.faults;
        self.size = size;
        self.told = self.told.and(piece);
        Ok(piece.len())
    }
}

// The text of a row of the piece, if there is one.
fn row_text(
    alloc: Global,
    front: &[u8],
    piece: &[u8],
    row: Option<Span>,
) -> Result<Option<Vec<u8>>, AllocError>
    requires { IfSome row (IsWithin piece.now) }
    ensures { IfOk result (λ text. option_map (λ t. t.items) text
        ≡ option_map (text_of front.now piece.now) row) }
{
    match row {
        Some(line) => Ok(Some(line_text(alloc, front, piece, line)?)),
        None => Ok(None),
    }
}

// Puts a later row in place of the one before, if there is one.
fn replace_row(row: &mut Option<Vec<u8>>, later: Option<Vec<u8>>)
    ensures { option_map (λ t. t.items) row.new
        ≡ option_or (option_map (λ t. t.items) later) (option_map (λ t. t.items) row.old) }
{
    if later.is_some() {
        *row = later;
    }
}
