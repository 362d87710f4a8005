//! Bytes that only clauses read. It takes no memory, and its functions do nothing at run time.
ghost use Rattle.std.specs.Prelude.{◌≡◌, ℕ, List, [], ◌++◌};
ghost use Rattle.std.specs.Borrow.{ftrue};

use std::marker::Model;

/// What was told so far.
#[derive(Drop)]
pub struct Told {
    pub ghost bytes: { List ℕ },
}

impl Model for Told {
    ghost also_owns = { λ _. ftrue };
}

impl Told {
    /// Nothing was told.
    pub fn new() -> Told
        ensures { result.bytes ≡ [] }
    {
        Told {}
    }

    /// The piece is told behind the others.
    pub fn and(&self, _piece: &[u8]) -> Told
        ensures { result.bytes ≡ self.now.bytes ++ _piece.now }
    {
        Told {}
    }
}
