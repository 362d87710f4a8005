//! The board, with its memory.

ghost use Rattle.std.specs.Prelude.{◌≡◌, ◌≤◌, length};
ghost use Rattle.mq_claims.specs.declared.limits.TheConstants.{MAX_PIECES};
ghost use Rattle.mq_claims.specs.declared.board.TheConstants.{WORDS};

use crate::view::{FollowsMachine, Setting, View};
use atomic_table::Table;
use std::alloc::Global;

/// A seat of a board: what a thread claims with. It has no bytes.
pub type Seat<P> = atomic_table::Seat<Option<P>, View<P>>;

/// The words of a board's table: the number that is claimed next, and the count of pieces that were put.
pub(crate) const NEXT: usize = 0;

pub(crate) const DONE: usize = 1;

pub(crate) const WORDS: usize = 2;

/// A list of pieces that seats claim by number, take and put back (docs/MEANING.md, "The claim board").
#[derive(Drop)]
pub struct Board<P> {
    pub(crate) table: Table<Option<P>, View<P>, Setting<P>, FollowsMachine, Global>,
    pub(crate) count: usize,
    ghost words: { table.shared.table_id.words ≡ WORDS },
    ghost slots: { (table.shared.table_id.slots ≡ count) × (length table.shared.key.handed.value.items ≡ count) × (count ≤ MAX_PIECES) },
}
