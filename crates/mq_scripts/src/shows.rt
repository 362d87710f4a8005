//! What is shown of a run: its lines, and its status.

use mq_values::{Memory, Num};

/// The lines behind the first so many. Where the last one has no end, a backslash stands in its place.
pub(crate) fn add_lines(taken: &[u8], hidden: usize, answer: &mut Vec<u8>) -> Result<(), Memory> {
    let mut line = 0;
    let mut open = false;
    for byte in taken {
        if line >= hidden {
            answer.push(*byte)?;
            open = *byte != b'\n';
        }
        if *byte == b'\n' {
            line = line.wrapping_add(1);
        }
    }
    if open {
        answer.extend_from_slice(b"\\\n")?;
    }
    Ok(())
}

/// How many lines stand between the first so many and the last one, and the last one.
pub(crate) fn add_last(taken: &[u8], hidden: usize, answer: &mut Vec<u8>) -> Result<(), Memory> {
    let before = lines(taken).saturating_sub(1);
    answer.extend_from_slice(b".. ")?;
    Num::new(before.saturating_sub(hidden) as i128, 0).print(answer)?;
    answer.extend_from_slice(b" lines\n")?;
    add_lines(taken, before, answer)
}

/// How many lines there are.
pub(crate) fn lines(taken: &[u8]) -> usize {
    let mut count = 0usize;
    for byte in taken {
        if *byte == b'\n' {
            count = count.wrapping_add(1);
        }
    }
    count
}

/// The line of a status.
pub(crate) fn add_status(status: u8, answer: &mut Vec<u8>) -> Result<(), Memory> {
    add_count(b"status ", status as u64, answer)
}

/// The line of how many pieces of work have met.
pub(crate) fn add_met(met: u64, answer: &mut Vec<u8>) -> Result<(), Memory> {
    add_count(b"met ", met, answer)
}

/// The line of how many partitions of a view are kept, and how much was read of them so far.
pub(crate) fn add_kept(kept: u32, reads: u64, answer: &mut Vec<u8>) -> Result<(), Memory> {
    answer.extend_from_slice(b"kept ")?;
    Num::new(kept as i128, 0).print(answer)?;
    add_count(b", reads ", reads, answer)
}

fn add_count(name: &[u8], count: u64, answer: &mut Vec<u8>) -> Result<(), Memory> {
    answer.extend_from_slice(name)?;
    Num::new(count as i128, 0).print(answer)?;
    answer.push(b'\n')?;
    Ok(())
}
