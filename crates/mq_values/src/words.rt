ghost use Rattle.std.specs.Prelude.{◌≡◌, [], ℕ, nat_eq, IfOk};
ghost use Rattle.std.specs.Hash as fed;
ghost use Rattle.std.proofs.Common.{rules};
ghost use Rattle.std.specs.Cmp;
ghost use Rattle.std.specs.Cmp.Rules.{hashing};
ghost use Rattle.std.specs.Cmp.Lexicographic.{pointwise, slice_cmp, nat_list_eq_equiv, nat_list_cmp_total, texts_ties, texts_po};
ghost use Rattle.std.specs.Ordering.{nat_cmp};

use crate::memory::Memory;
use std::alloc::{AllocError, Global};
use std::cmp::Ordering;
use std::hash::{Hash, Hasher};
use std::marker::Model;
use std::sync::ArcStr;

/// A text that many hold at once, as a name or a text value. A copy of it copies no byte.
/// Contracts see it as the list of its bytes in UTF-8.
#[derive(Debug, Drop)]
pub struct Words {
    text: Option<ArcStr>,
}

impl Model for Words {
    ghost use Rattle.std.specs.Prelude.{ℕ, List};
    ghost use Rattle.mq_values.specs.Words.{bytes_behind};

    ghost Value = { List ℕ };

    ghost view = { λ w. bytes_behind w.text };
}

impl Words {
    /// The empty text. It takes no memory.
    pub fn empty() -> Words
        ensures { result ≡ [] }
    {
        Words { text: None }
    }

    /// The text `text`, to be shared from now on.
    pub fn new(alloc: Global, text: &str) -> Result<Words, Memory>
        ensures { IfOk result (λ w. w ≡ text.now) }
    {
        if text.is_empty() {
            return Ok(Words::empty());
        }
        Ok(Words {
            text: Some(ArcStr::from_str(alloc, text)?),
        })
    }

    pub fn as_str(&self) -> &str
        ensures { result.now ≡ self.now }
    {
        match &self.text {
            None => "",
            Some(text) => text.as_str(),
        }
    }

    /// The same text once more. Its bytes are not copied.
    pub fn copy(&self) -> Result<Words, Memory>
        ensures { IfOk result (λ w. w ≡ self.now) }
    {
        match &self.text {
            None => Ok(Words::empty()),
            Some(text) => Ok(Words {
                text: Some(text.clone()?),
            }),
        }
    }
}

impl Clone for Words {
    ghost is_clone = { λ a b. b ≡ a };

    fn clone(&self) -> Result<Words, AllocError> {
        match self.copy() {
            Ok(copy) => Ok(copy),
            Err(_) => Err(AllocError),
        }
    }
}

impl PartialEq for Words {
    ghost eq = { pointwise nat_eq };

    ghost laws = { Cmp.partial_equiv_from_equiv nat_list_eq_equiv };

    fn eq(&self, other: &Words) -> bool {
        self.as_str() == other.as_str()
    }
}

impl Eq for Words {
    ghost laws = { nat_list_eq_equiv };
}

impl PartialOrd for Words {
    ghost use Rattle.std.specs.Prelude.{Some};

    ghost partial_cmp = { λ a b. Some (slice_cmp nat_cmp a b) };

    ghost laws = { texts_po };

    fn partial_cmp(&self, other: &Words) -> Option<Ordering> {
        Some(self.cmp(other))
    }
}

impl Ord for Words {
    ghost use Rattle.std.specs.Prelude.{refl};

    ghost cmp = { slice_cmp nat_cmp };

    ghost total = { nat_list_cmp_total };

    ghost matches_partial_cmp = { λ x y. refl };

    ghost matches_eq = { texts_ties };

    fn cmp(&self, other: &Words) -> Ordering {
        self.as_str().cmp(other.as_str())
    }
}

impl Hash for Words {
    ghost hash_input = { fed.str };

    ghost respects_eq = { Prim.search (hashing, rules) };

    fn hash<H: Hasher>(&self, state: &mut H) {
        self.as_str().hash(state);
    }
}
