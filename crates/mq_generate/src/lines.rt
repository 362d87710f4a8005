//! The lines of a piece of an output, found without a copy.
ghost use Rattle.std.specs.Prelude.{◌≡◌, ◌≤◌, ◌<◌, ◌++◌, length, IfOk};
ghost use Rattle.mq_generate.specs.Summary as spec;
ghost use Rattle.mq_generate.specs.Notes as notes;
ghost use Rattle.mq_generate.specs.Notes.{IsNoted, IsWithin, notes_with_line, text_of};

use std::alloc::{AllocError, Global};

const LINE_FEED: u8 = b'\n';

/// The place of a line in a piece. The front that was kept before stands before the first line.
#[derive(Clone, Copy)]
pub struct Span {
    pub start: usize,
    pub end: usize,
}

/// What is noted of a piece: how many of the lines that end in it are errors and faults, the last row
/// among them, and where the line starts that is open at its end.
#[derive(Clone, Copy)]
pub struct Notes {
    pub errors: u64,
    pub faults: u64,
    pub row: Option<Span>,
    pub start: usize,
}

/// Notes the lines that end in the piece, the first of them behind the front.
pub fn note_lines(front: &[u8], piece: &[u8]) -> Notes
    ensures { IsNoted front.now piece.now (length piece.now) result }
{
    let mut notes = Notes {
        errors: 0,
        faults: 0,
        row: None,
        start: 0,
    };
    'bytes: for (at, byte) in piece.iter().enumerate() {
        if *byte == LINE_FEED {
            notes = with_line(front, piece, notes, at);
        }
    }
    notes
}

// Notes the line that ends at this place.
fn with_line(front: &[u8], piece: &[u8], notes: Notes, end: usize) -> Notes
    requires start { notes.start ≤ end }
    requires end { end < length piece.now }
    requires errors { notes.errors ≤ end }
    requires faults { notes.faults ≤ end }
    ensures { result ≡ notes_with_line front.now piece.now notes end }
{
    let line = Span {
        start: notes.start,
        end,
    };
    let front = front_at(front, line.start);
    let back = &piece[line.start..end];
    Notes {
        errors: notes.errors + u64::from(is_error(front, back)),
        faults: notes.faults + u64::from(is_fault(front, back)),
        row: if is_row(front, back) {
            Some(line)
        } else {
            notes.row
        },
        start: end + 1,
    }
}

/// The text of a line of the piece, as a whole.
pub fn line_text(
    alloc: Global,
    front: &[u8],
    piece: &[u8],
    line: Span,
) -> Result<Vec<u8>, AllocError>
    requires { IsWithin piece.now line }
    ensures { IfOk result (λ text. text.items ≡ text_of front.now piece.now line) }
{
    let mut text = Vec::from_slice(alloc, front_at(front, line.start))?;
    text.extend_from_slice(&piece[line.start..line.end])?;
    Ok(text)
}

// What stands in front of a line that starts at this place of a piece.
fn front_at(front: &[u8], start: usize) -> &[u8]
    ensures { result.now ≡ notes.front_at front.now start }
{
    let kept = if start == 0 { front.len() } else { 0 };
    &front[..kept]
}

/// A line that stands in two parts is the line of a refusal.
pub fn is_error(front: &[u8], back: &[u8]) -> bool
    ensures { result ≡ spec.is_error (front.now ++ back.now) }
{
    begins(front, back, b"error".as_slice())
}

/// A line that stands in two parts is the line of a fault.
pub fn is_fault(front: &[u8], back: &[u8]) -> bool
    ensures { result ≡ spec.is_fault (front.now ++ back.now) }
{
    begins(front, back, b"fault".as_slice())
}

/// A line that stands in two parts is a row of an answer.
pub fn is_row(front: &[u8], back: &[u8]) -> bool
    ensures { result ≡ spec.is_row (front.now ++ back.now) }
{
    !(begins(front, back, b"ok".as_slice())
        || begins(front, back, b"rows".as_slice())
        || is_error(front, back)
        || is_fault(front, back))
}

// A line that stands in two parts begins with the word, which may reach over both.
fn begins(front: &[u8], back: &[u8], word: &[u8]) -> bool
    ensures { result ≡ spec.begins word.now (front.now ++ back.now) }
{
    let (first, second) = word.split_at(front.len().min(word.len()));
    front.starts_with(first) && back.starts_with(second)
}
