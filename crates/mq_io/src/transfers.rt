// Whole sources read, and whole pieces written.
ghost use Rattle.std.specs.Prelude.{◌≡◌, ◌+◌, ◌-◌, ◌<◌, ◌≤◌, [], length, IfOk, OnOk, OnErr, IsErrOf};
ghost use Rattle.std.specs.Io.KnownBytes.{Appends, Consumes, IsAtEnd};
ghost use Rattle.mq_io.specs.Causes.{Rose};
ghost use Rattle.mq_io.specs.Progress.{GaveAtMost, JudgesLength, ReadsMore, AppendsFront};

use crate::faults::{IoFault, ReadFault};
use crate::sinks::Sink;
use crate::sources::Source;
use std::alloc::{AllocError, Global};

/// How many bytes are asked of a source at once.
pub const READ_SIZE: usize = 65536;

/// Reads a whole source of at most `limit` bytes. `TooLong` comes where it gave more than the limit,
/// and then it is read no further; `Failed` where it failed; `Memory` where memory ran out
/// (docs/MEANING.md, "The outside").
pub fn read_all<S: Source>(
    alloc: Global,
    source: &mut S,
    limit: usize,
) -> Result<Vec<u8>, ReadFault>
    ensures whole { IfOk result
        (λ bytes. Consumes (S.left source.old) (S.left source.new) bytes.items) }
    ensures end { OnOk result (IsAtEnd (S.left source.new)) }
    ensures within { IfOk result (λ bytes. length bytes.items ≤ limit) }

    // `TooLong` exactly where it gave more than the limit, and then at most one buffer more.
    ensures length { JudgesLength limit (S.left source.old) (S.left source.new) result }
    ensures stops { GaveAtMost (limit + READ_SIZE) (S.left source.old) (S.left source.new) }

    ensures later { S.faults source.old ≤ S.faults source.new }
    ensures failed { IsErrOf result ReadFault.Failed
        → Rose (S.faults source.old) (S.faults source.new) }
{
    let mut buffer = read_buffer(alloc)?;
    let mut bytes = Vec::new(alloc);
    gather(source, &mut buffer, &mut bytes, limit)?;
    Ok(bytes)
}

// The bytes that a read writes over.
fn read_buffer(alloc: Global) -> Result<Vec<u8>, AllocError>
    ensures { IfOk result (λ buffer. length buffer.items ≡ READ_SIZE) }
{
    vec![in alloc; 0u8; READ_SIZE]
}

// Reads on to the end of the source, a buffer at a time.
fn gather<S: Source>(
    source: &mut S,
    buffer: &mut [u8],
    bytes: &mut Vec<u8>,
    limit: usize,
) -> Result<(), ReadFault>
    requires room { 0 < length buffer.old }
    requires empty { bytes.old.items ≡ [] }
    ensures whole { OnOk result (Consumes (S.left source.old) (S.left source.new) bytes.new.items) }
    ensures end { OnOk result (IsAtEnd (S.left source.new)) }
    ensures within { OnOk result (length bytes.new.items ≤ limit) }
    ensures length { JudgesLength limit (S.left source.old) (S.left source.new) result }
    ensures stops { GaveAtMost (limit + length buffer.old) (S.left source.old) (S.left source.new) }
    ensures later { S.faults source.old ≤ S.faults source.new }
    ensures failed { IsErrOf result ReadFault.Failed
        → Rose (S.faults source.old) (S.faults source.new) }
{
    'pieces: while read_more(source, buffer, bytes, limit)? {}
    Ok(())
}

// Reads once, and says whether anything came. It goes behind what is there, if that is within
// the limit.
fn read_more<S: Source>(
    source: &mut S,
    buffer: &mut [u8],
    bytes: &mut Vec<u8>,
    limit: usize,
) -> Result<bool, ReadFault>
    requires room { 0 < length buffer.old }
    requires within { length bytes.old.items ≤ limit }
    ensures more { IfOk result (ReadsMore
        (S.left source.old) (S.left source.new) bytes.old.items bytes.new.items) }
    ensures within { OnOk result (length bytes.new.items ≤ limit) }
    ensures length { JudgesLength (limit - length bytes.old.items)
        (S.left source.old) (S.left source.new) result }
    ensures stops { GaveAtMost (length buffer.old) (S.left source.old) (S.left source.new) }
    ensures later { S.faults source.old ≤ S.faults source.new }
    ensures failed { IsErrOf result ReadFault.Failed
        → Rose (S.faults source.old) (S.faults source.new) }
{
    let count = source.read(buffer)?;
    if count > limit - bytes.len() {
        return Err(ReadFault::TooLong);
    }
    bytes.extend_from_slice(&buffer[..count])?;
    Ok(count > 0)
}

/// Writes the whole piece. After an error a front of it was written: `Failed` comes where the sink
/// failed, `Memory` where memory ran out (docs/MEANING.md, "The outside").
pub fn write_all<K: Sink>(sink: &mut K, piece: &[u8]) -> Result<(), IoFault>
    ensures whole { OnOk result (Appends (K.taken sink.old) (K.taken sink.new) piece.now) }
    ensures front { OnErr result (AppendsFront (K.taken sink.old) (K.taken sink.new) piece.now) }
    ensures later { K.faults sink.old ≤ K.faults sink.new }
    ensures failed { IsErrOf result IoFault.Failed → Rose (K.faults sink.old) (K.faults sink.new) }
{
    let mut at = 0;
    'pieces: while at < piece.len() {
        at += sink.write(&piece[at..])?;
    }
    Ok(())
}
