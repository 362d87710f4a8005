//! What a seat knows, and the rule of the board's table. These types are for the proofs alone: no value of them is
//! made, but for the key of a table, which has no bytes that matter.

use atomic_table::{Join, Play, Split, TableRule};
use mq_values::Items;
use std::snapshot::Snapshot;

/// A number that a seat claimed or took over, with the piece that was put under it, once one was.
pub struct Entry<P> {
    pub number: u32,
    pub piece: Option<P>,
}

/// What a seat knows of its board and of itself.
pub struct View<P> {
    /// The pieces as they were handed in.
    pub handed: Items<P>,
    pub entries: Items<Entry<P>>,
    /// It was told that there is no more to claim, where it found the number `found`.
    pub told: bool,
    pub found: u64,
    /// It has claimed the number `hand` and has not put its piece yet.
    pub busy: bool,
    pub hand: u32,
    /// It was not joined into another seat.
    pub live: bool,
    /// It is the board's first seat, may split this many times yet, and has this many seats to join.
    pub first: bool,
    pub splits: u32,
    pub away: u32,
}

/// What a table is told once: the pieces handed in, and the number of seats.
#[derive(Drop)]
pub struct Setting<P> {
    pub handed: Snapshot<Vec<P>>,
    pub seats: u32,
}

/// There is a run of the claim machine that ends in what the table shows.
pub struct FollowsMachine;

impl<P> TableRule<Option<P>, View<P>, Setting<P>> for FollowsMachine {
    ghost use Rattle.mq_claims.specs.Rule.{rule, opener};

    ghost holds = { rule };

    ghost first = { opener };
}

/// A step on the word of numbers.
pub struct Claiming;

impl<P> Play<Option<P>, View<P>> for Claiming {
    ghost use Rattle.mq_claims.specs.Rule.{Claims};

    ghost then = { Claims };
}

/// A step on the word of pieces done.
pub struct Putting;

impl<P> Play<Option<P>, View<P>> for Putting {
    ghost use Rattle.mq_claims.specs.Rule.{Puts};

    ghost then = { Puts };
}

/// A look at the seat's own list.
pub struct Looking;

impl<P> Play<Option<P>, View<P>> for Looking {
    ghost use Rattle.mq_claims.specs.Rule.{Looks};

    ghost then = { Looks };
}

/// The first seat lends a seat out, and takes it back.
pub struct Lending;

impl<P> Split<View<P>> for Lending {
    ghost use Rattle.mq_claims.specs.Views.{one_more_away, newcomer_of};

    ghost left = { one_more_away };

    ghost right = { newcomer_of };
}

impl<P> Join<View<P>> for Lending {
    ghost use Rattle.mq_claims.specs.Views.{joined, spent};

    ghost both = { joined };

    ghost spent = { spent };
}
