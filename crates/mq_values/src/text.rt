ghost use Rattle.std.specs.Prelude.{◌≡◌, [], IsTrue, Some, None, IfOk, if◌then◌else◌};
ghost use Rattle.std.specs.List.{list_all};
ghost use Rattle.mq_values.specs.Text.{is_plain, is_text};

use crate::limits::MAX_TEXT_BYTES;
use crate::memory::Memory;
use crate::words::Words;
use std::alloc::{AllocError, Global};
use std::marker::Model;

/// A text as a value: at most `MAX_TEXT_BYTES` bytes and no control characters (docs/LANGUAGE.md, "Values").
/// Contracts see it as the list of its bytes in UTF-8.
#[derive(Debug, Drop, PartialEq, Eq, PartialOrd, Ord, Hash)]
pub struct Text {
    words: Words,
}

impl Model for Text {
    ghost use Rattle.std.specs.Prelude.{ℕ, List, IsTrue};
    ghost use Rattle.mq_values.specs.Text.{is_text};

    ghost Value = { List ℕ };

    ghost view = { λ t. t.words };

    ghost invariant = { λ t. IsTrue (is_text t.words) };

    ghost inverse = { λ bytes. record { words = bytes } };
}

impl Text {
    /// The empty text. It takes no memory.
    pub fn empty() -> Text
        ensures { result ≡ [] }
    {
        Text {
            words: Words::empty(),
        }
    }

    /// The text `text`, or `None` where it is longer than `MAX_TEXT_BYTES` bytes or has a control character.
    pub fn new(alloc: Global, text: &str) -> Result<Option<Text>, Memory>
        ensures { IfOk result (λ t. t ≡ (if is_text text.now then Some text.now else None)) }
    {
        if !may_be_text(text) {
            return Ok(None);
        }
        Ok(Some(Text {
            words: Words::new(alloc, text)?,
        }))
    }

    pub fn as_str(&self) -> &str
        ensures value { result.now ≡ self.now }
        ensures text { IsTrue (is_text self.now) }
    {
        self.words.as_str()
    }

    /// The same text once more. Its bytes are not copied.
    pub fn copy(&self) -> Result<Text, Memory>
        ensures { IfOk result (λ t. t ≡ self.now) }
    {
        Ok(Text {
            words: self.words.copy()?,
        })
    }
}

impl Clone for Text {
    ghost is_clone = { λ a b. b ≡ a };

    fn clone(&self) -> Result<Text, AllocError> {
        match self.copy() {
            Ok(copy) => Ok(copy),
            Err(_) => Err(AllocError),
        }
    }
}

fn may_be_text(text: &str) -> bool
    ensures { result ≡ is_text text.now }
{
    text.len() <= MAX_TEXT_BYTES && is_plain(text.as_bytes())
}

fn is_plain(bytes: &[u8]) -> bool
    ensures { result ≡ list_all is_plain bytes.now }
{
    bytes.iter().all(|&b| b >= 32 && b != 127)
}
