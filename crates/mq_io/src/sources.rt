// What a script is read from.
ghost use Rattle.std.specs.Prelude.{◌≡◌, ◌<◌, ◌≤◌, ◌++◌, ℕ, List, Option, Some, length, min, take, drop, OnErr, IfOk, is_err};
ghost use Rattle.std.specs.Io.{ReadsAtMost};
ghost use Rattle.std.specs.Io.KnownBytes.{ReadConsumes};
ghost use Rattle.mq_io.specs.Causes.{Rose};
ghost use Rattle.mq_io.specs.Calls.{no_calls, is_due, after_call};

use crate::calls::CallCount;
use crate::faults::Failed;
use std::io::Read;
use std::marker::Model;

/// Where bytes come from, a piece a call (docs/MEANING.md, "The outside").
pub trait Source {
    /// The bytes that it has left, where it tells them.
    ghost left: { Self → Option (List ℕ) };

    /// How often it failed.
    ghost faults: { Self → ℕ };

    /// Puts the next bytes at the front of the buffer, and answers how many they are. Into a buffer
    /// that is not empty, none come only at the end. After `Failed` nothing was given.
    fn read(&mut self, buf: &mut [u8]) -> Result<usize, Failed>
        ensures bound { ReadsAtMost result buf.new }
        ensures bytes { ReadConsumes (left self.old) (left self.new) result buf.new }
        ensures later { faults self.old ≤ faults self.new }
        ensures failed { OnErr result (Rose (faults self.old) (faults self.new)) };
}

/// A source over bytes in memory, which gives at most a piece a call, and fails at the calls that it
/// is told.
#[derive(Drop)]
pub struct BytesSource {
    bytes: Vec<u8>,
    at: usize,
    piece: u32,
    calls: CallCount,
}

impl Model for BytesSource {
    ghost use Rattle.std.specs.Prelude.{◌<◌, ◌≤◌, drop, vec_len};
    ghost use Rattle.mq_io.specs.InMemory.{Feed};

    ghost Value = { Feed };

    ghost view = { λ s. record {
      left = drop s.at s.bytes.items;
      piece = s.piece;
      calls = s.calls;
    } };

    ghost invariant = { λ s. (s.at ≤ vec_len s.bytes) × (0 < s.piece) };
}

impl BytesSource {
    /// A source of these bytes. `failing` holds the numbers of the calls that are to fail, counted
    /// from 1; each call gives at most `piece` bytes.
    pub fn new(bytes: Vec<u8>, failing: Vec<u64>, piece: u32) -> Self
        requires { 0 < piece }
        ensures { result ≡ record {
          left = bytes.items;
          piece = piece;
          calls = no_calls failing.items;
        } }
    {
        BytesSource {
            bytes,
            at: 0,
            piece,
            calls: CallCount::new(failing),
        }
    }
}

impl Source for BytesSource {
    ghost left = { λ s. Some s.left };

    ghost faults = { λ s. s.calls.failed };

    fn read(&mut self, buf: &mut [u8]) -> Result<usize, Failed>
        ensures bound { ReadsAtMost result buf.new }
        ensures bytes { ReadConsumes (Some self.old.left) (Some self.new.left) result buf.new }
        ensures later { self.old.calls.failed ≤ self.new.calls.failed }
        ensures failed { OnErr result (Rose self.old.calls.failed self.new.calls.failed) }

        // Which calls fail, and how much the others give.
        ensures due { is_err result ≡ is_due self.old.calls }
        ensures count { IfOk result
            (λ n. n ≡ min (length buf.old) (min self.old.piece (length self.old.left))) }
        ensures counted { self.new.calls ≡ after_call self.old.calls }
        ensures piece { self.new.piece ≡ self.old.piece }
    {
        if self.calls.fails_next() {
            return Err(Failed);
        }
        let rest = &self.bytes[self.at..];
        let count = copy_front(rest, self.piece, buf);
        self.at += count;
        Ok(count)
    }
}

// Copies the front of the bytes to the front of the buffer, as much as a piece and the buffer have
// room for, and answers how much.
fn copy_front(bytes: &[u8], piece: u32, buf: &mut [u8]) -> usize
    ensures count { result ≡ min (length buf.old) (min piece (length bytes.now)) }
    ensures copied { buf.new ≡ take result bytes.now ++ drop result buf.old }
{
    let count = buf.len().min(bytes.len().min(piece as usize));
    buf[..count].copy_from_slice(&bytes[..count]);
    count
}

/// A source over one of std's readers. It tells what that tells, and counts each of its errors as a
/// fault.
#[derive(Drop)]
pub struct ReaderSource<R> {
    reader: R,
    faults: u64,
}

impl<R: Read> ReaderSource<R> {
    /// A source over the reader, with no fault yet.
    pub fn new(reader: R) -> Self
        ensures left { ⟦<ReaderSource<R> as Source>⟧.left result ≡ R.remaining reader }
        ensures faults { ⟦<ReaderSource<R> as Source>⟧.faults result ≡ 0 }
    {
        ReaderSource { reader, faults: 0 }
    }
}

impl<R: Read> Source for ReaderSource<R> {
    ghost left = { λ s. R.remaining s.reader };

    ghost faults = { λ s. s.faults };

    fn read(&mut self, buf: &mut [u8]) -> Result<usize, Failed> {
        match self.reader.read(buf) {
            Ok(count) => Ok(count),
            Err(_) => {
                self.faults = self.faults.saturating_add(1);
                Err(Failed)
            }
        }
    }
}
