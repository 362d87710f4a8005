//! The head of a row: a name, and behind it what the row asks for, each with a bar before it.

ghost use Rattle.std.specs.Prelude.{◌<◌};

/// The name of a row.
pub(crate) fn name_of(head: &str) -> &str {
    match head.split_once('|') {
        Some((name, _)) => name.trim(),
        None => head.trim(),
    }
}

/// What stands behind the sign `=` of an ask, and nothing behind one without it; `None` where the head has no such ask.
pub(crate) fn ask<'a>(head: &'a str, wanted: &str) -> Option<&'a str> {
    for part in head.split('|').skip(1) {
        let (name, value) = match part.split_once('=') {
            Some((name, value)) => (name.trim(), value.trim()),
            None => (part.trim(), ""),
        };
        if name == wanted {
            return Some(value);
        }
    }
    None
}

/// The number that an ask gives, and else the number meant.
pub(crate) fn count(head: &str, wanted: &str, meant: usize) -> usize {
    match ask(head, wanted) {
        Some(text) => text.parse::<usize>().unwrap_or(meant),
        None => meant,
    }
}

/// How many bytes a call gives or takes.
pub(crate) fn piece(head: &str, wanted: &str) -> u32
    ensures { 0 < result }
{
    match ask(head, wanted) {
        Some(text) => match text.split_once(',') {
            Some((piece, _)) => at_least_one(piece),
            None => at_least_one(text),
        },
        None => 65536,
    }
}

/// The number of the call that fails, 0 for none.
pub(crate) fn failing(head: &str, wanted: &str) -> u64 {
    match ask(head, wanted) {
        Some(text) => match text.split_once(',') {
            Some((_, call)) => call.parse::<u64>().unwrap_or(0),
            None => 0,
        },
        None => 0,
    }
}

fn at_least_one(text: &str) -> u32
    ensures { 0 < result }
{
    match text.parse::<u32>() {
        Ok(0) => 1,
        Ok(piece) => piece,
        Err(_) => 1,
    }
}
