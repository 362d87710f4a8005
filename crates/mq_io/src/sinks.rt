// What an answer is written to.
ghost use Rattle.std.specs.Prelude.{◌≡◌, ◌↔◌, ◌<◌, ◌≤◌, ℕ, List, Option, [], Some, length, min, IfOk, IsErrOf, IsTrue};
ghost use Rattle.std.specs.Io.{WritesAtMost};
ghost use Rattle.std.specs.Io.KnownBytes.{WriteAppends};
ghost use Rattle.mq_io.specs.Causes.{Rose};
ghost use Rattle.mq_io.specs.Calls.{no_calls, is_due, after_call};

use crate::calls::CallCount;
use crate::faults::IoFault;
use std::alloc::Global;
use std::io::Write;
use std::marker::Model;

/// Where bytes go, a piece a call (docs/MEANING.md, "The outside").
pub trait Sink {
    /// The bytes that it has taken, where it tells them.
    ghost taken: { Self → Option (List ℕ) };

    /// How often it failed.
    ghost faults: { Self → ℕ };

    /// Takes a front of the piece, and answers how long it is: at least one byte, unless the piece
    /// is empty. After an error nothing was taken. `Failed` comes where the sink failed, `Memory`
    /// where memory ran out.
    fn write(&mut self, piece: &[u8]) -> Result<usize, IoFault>
        ensures bound { WritesAtMost result piece.now }
        ensures bytes { WriteAppends (taken self.old) (taken self.new) result piece.now }
        ensures progress { 0 < length piece.now → IfOk result (λ n. 0 < n) }
        ensures later { faults self.old ≤ faults self.new }
        ensures failed { IsErrOf result IoFault.Failed → Rose (faults self.old) (faults self.new) };
}

/// A sink in memory, which takes at most a piece a call and fails at the calls that it is told.
#[derive(Drop)]
pub struct VecSink {
    bytes: Vec<u8>,
    piece: u32,
    calls: CallCount,
}

impl Model for VecSink {
    ghost use Rattle.std.specs.Prelude.{◌<◌};
    ghost use Rattle.mq_io.specs.InMemory.{Collection};

    ghost Value = { Collection };

    ghost view = { λ s. record { taken = s.bytes.items; piece = s.piece; calls = s.calls } };

    ghost invariant = { λ s. 0 < s.piece };
}

impl VecSink {
    /// An empty sink. `failing` holds the numbers of the calls that are to fail, counted from 1;
    /// each call takes at most `piece` bytes.
    pub fn new(alloc: Global, failing: Vec<u64>, piece: u32) -> Self
        requires { 0 < piece }
        ensures { result ≡ record { taken = []; piece = piece; calls = no_calls failing.items } }
    {
        VecSink {
            bytes: Vec::new(alloc),
            piece,
            calls: CallCount::new(failing),
        }
    }

    /// The bytes that it has taken.
    pub fn taken(&self) -> &[u8]
        ensures { result.now ≡ self.now.taken }
    {
        &self.bytes
    }
}

impl Sink for VecSink {
    ghost taken = { λ s. Some s.taken };

    ghost faults = { λ s. s.calls.failed };

    fn write(&mut self, piece: &[u8]) -> Result<usize, IoFault>
        ensures bound { WritesAtMost result piece.now }
        ensures bytes { WriteAppends (Some self.old.taken) (Some self.new.taken) result piece.now }
        ensures progress { 0 < length piece.now → IfOk result (λ n. 0 < n) }
        ensures later { self.old.calls.failed ≤ self.new.calls.failed }
        ensures failed { IsErrOf result IoFault.Failed
            → Rose self.old.calls.failed self.new.calls.failed }

        // Which calls fail, and how much the others take.
        ensures due { IsErrOf result IoFault.Failed ↔ IsTrue (is_due self.old.calls) }
        ensures count { IfOk result (λ n. n ≡ min (length piece.now) self.old.piece) }
        ensures counted { self.new.calls ≡ after_call self.old.calls }
        ensures piece { self.new.piece ≡ self.old.piece }
    {
        if self.calls.fails_next() {
            return Err(IoFault::Failed);
        }
        let count = piece.len().min(self.piece as usize);
        self.bytes.extend_from_slice(&piece[..count])?;
        Ok(count)
    }
}

/// A sink over one of std's writers. It tells what that tells. It counts as a fault each of its
/// errors, and each write that takes nothing of a piece that is not empty.
#[derive(Drop)]
pub struct WriterSink<W> {
    writer: W,
    faults: u64,
}

impl<W: Write> WriterSink<W> {
    /// A sink over the writer, with no fault yet.
    pub fn new(writer: W) -> Self
        ensures taken { ⟦<WriterSink<W> as Sink>⟧.taken result ≡ W.contents writer }
        ensures faults { ⟦<WriterSink<W> as Sink>⟧.faults result ≡ 0 }
    {
        WriterSink { writer, faults: 0 }
    }
}

impl<W: Write> Sink for WriterSink<W> {
    ghost taken = { λ s. W.contents s.writer };

    ghost faults = { λ s. s.faults };

    fn write(&mut self, piece: &[u8]) -> Result<usize, IoFault> {
        match self.writer.write(piece) {
            Ok(count) if count > 0 || piece.is_empty() => Ok(count),
            _ => {
                self.faults = self.faults.saturating_add(1);
                Err(IoFault::Failed)
            }
        }
    }
}
