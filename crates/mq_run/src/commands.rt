//! The words of the command line.

ghost use Rattle.std.specs.Prelude.{◌≡◌, ◌≤◌, map, string_bytes, IfSome};
ghost use Rattle.std.specs.Char.{is_ascii_digit};
ghost use Rattle.std.specs.List.{list_all};
ghost use Rattle.mq_run.specs.Commands as spec;
ghost use Rattle.mq_run.specs.Commands.{IsInRange};

use mq_engine::MAX_WORKERS;

/// How many workers there are where no word says it.
pub const DEFAULT_WORKERS: u32 = 4;

/// The greatest number that a script is generated from.
pub const MAX_NUMBER: u32 = 4_294_967_295;

/// The greatest size of a generated script.
pub const MAX_SIZE: u32 = 2_000;

/// How many digits a number may have.
pub const MAX_DIGITS: usize = 10;

/// The base that numbers are written in.
pub const DECIMAL_BASE: u32 = 10;

/// What the program is asked to do.
#[derive(Clone, Copy)]
pub(crate) enum Command {
    /// To run the script from the source, with so many workers.
    Script(u32),
    /// To run the script that is generated from a number and a size.
    Generated(u32, u32),
}

/// What the words ask for, or `None` where they are none that are known (docs/LANGUAGE.md, "The command line").
pub(crate) fn command_of(words: &[String]) -> Option<Command>
    ensures exact { result ≡ spec.command_of (map string_bytes words.now) }
    ensures ranges { IfSome result IsInRange }
{
    match words {
        [] => Some(Command::Script(DEFAULT_WORKERS)),
        [word, count] if word.as_str() == "--workers" => {
            let workers = number_in(1, MAX_WORKERS, count)?;
            Some(Command::Script(workers))
        }
        [word, number, size] if word.as_str() == "--generate" => {
            let number = number_in(0, MAX_NUMBER, number)?;
            let size = number_in(1, MAX_SIZE, size)?;
            Some(Command::Generated(number, size))
        }
        _ => None,
    }
}

// The number that the word writes, where it lies between these two.
fn number_in(least: u32, most: u32, word: &str) -> Option<u32>
    ensures { result ≡ spec.number_in least most word.now }
{
    if !is_numeral(word.as_bytes()) {
        return None;
    }
    match word.parse::<u32>() {
        Ok(number) if least <= number && number <= most => Some(number),
        _ => None,
    }
}

fn is_numeral(word: &[u8]) -> bool
    ensures { result ≡ spec.is_numeral word.now }
{
    let digits = are_digits(word);
    !word.is_empty() && word.len() <= MAX_DIGITS && digits
}

fn are_digits(word: &[u8]) -> bool
    ensures { result ≡ list_all is_ascii_digit word.now }
{
    word.iter().all(|digit| digit.is_ascii_digit())
}
