//! The calls of a board.

ghost use Rattle.std.specs.Prelude.{◌≡◌, ◌-◌, ◌<◌, ◌≤◌, true, Some, [], ◌∷◌, length, IfOk, IfSome, IfNone};
ghost use mathlib.Core.Option.{some};
ghost use lib.ListN.{get_elem?};
ghost use Rattle.mq_claims.specs.Views.{AllBelow, NoTwice, beginner, newcomer, with_claim, told_none, with_put, one_more_away, joined};
ghost use Rattle.mq_claims.specs.Calls.{handed_in, view_of, IsSeatOf, IsSameSeat, IsWhole};
ghost use Rattle.mq_claims.specs.Calls.{MayClaim, HasClaimed, HasTaken, MaySplit, IsFinished, MayClose};

use crate::board::{Board, DONE, NEXT, Seat, WORDS};
use crate::limits::{MAX_PIECES, MAX_SEATS};
use crate::slots::{emptied, filled};
use crate::view::{Claiming, Lending, Looking, Putting, Setting};
use atomic_table::Table;
use mq_values::Memory;
use std::alloc::Global;
use std::snapshot::Snapshot;

impl<P> Board<P> {
    /// A board of these pieces and its first seat, which may split one time less than there are seats.
    /// After Memory the pieces are gone.
    pub fn new(alloc: Global, pieces: Vec<P>, seats: u32) -> Result<(Board<P>, Seat<P>), Memory>
    where
        P: Drop,
        requires few { length pieces.items ≤ MAX_PIECES }
        requires seats { (0 < seats) × (seats ≤ MAX_SEATS) }
        ensures board { IfOk result (λ r. handed_in r.0 ≡ pieces.items) }
        ensures seat { IfOk result (λ r. IsSeatOf r.0 r.1 × (r.1.me ≡ (beginner pieces.items (seats - 1), []))) }
    {
        let count = pieces.len();
        let setting = Setting {
            handed: Snapshot::of(&pieces),
            seats,
        };
        match Table::new(alloc, &[0; WORDS], filled(alloc, pieces)?, &setting) {
            Ok((table, seat)) => Ok((Board { table, count }, seat)),
            Err(_refused) => Err(Memory),
        }
    }

    /// Claims the next number for the seat, or tells it none: then the number found has reached the count of pieces.
    pub fn claim(&self, seat: &mut Seat<P>) -> Option<u32>
        requires board { IsSeatOf self.now seat.old }
        requires free { MayClaim seat.old }
        ensures same { IsSameSeat seat.old seat.new }
        ensures number { IfSome result (λ k. (k < length (handed_in self.now)) × AllBelow k (view_of seat.old).entries) }
        ensures claimed { IfSome result (λ k. (view_of seat.new ≡ with_claim (view_of seat.old) k) × HasClaimed seat.new k) }
        ensures none { IfNone result (length (handed_in self.now) ≤ (view_of seat.new).found) }
        ensures told { IfNone result (seat.new.me ≡ (told_none (view_of seat.old) (view_of seat.new).found, [])) }
    {
        let found = self.table.shared.fetch_add::<Claiming>(seat, NEXT, 1);
        if found < self.count as u64 {
            Some(found as u32)
        } else {
            None
        }
    }

    /// The piece that was handed in under the number that the seat claimed.
    pub fn take(&self, seat: &mut Seat<P>, k: u32) -> P
        requires board { IsSeatOf self.now seat.old }
        requires claimed { HasClaimed seat.old k }
        ensures same { IsSameSeat seat.old seat.new }
        ensures piece { get_elem? (handed_in self.now) k ≡ some result }
        ensures taken { (view_of seat.new ≡ view_of seat.old) × HasTaken seat.new k }
    {
        let nothing: Option<P> = None;
        match self.table.shared.exchange(seat, k as usize, nothing) {
            Some(piece) => piece,
            None => unreachable!(),
        }
    }

    /// Puts a piece back under the number that the seat took.
    pub fn put(&self, seat: &mut Seat<P>, k: u32, piece: P)
        requires board { IsSeatOf self.now seat.old }
        requires taken { HasTaken seat.old k }
        ensures same { IsSameSeat seat.old seat.new }
        ensures done { seat.new.me ≡ (with_put (view_of seat.old) k piece, []) }
    {
        match self.table.shared.exchange(seat, k as usize, Some(piece)) {
            None => {}
            Some(_) => unreachable!(),
        }
        self.table.shared.fetch_add::<Putting>(seat, DONE, 1);
    }

    /// A further seat of the board, whose list is empty and which may not split.
    pub fn split(&self, seat: &mut Seat<P>) -> Seat<P>
        requires board { IsSeatOf self.now seat.old }
        requires left { MaySplit seat.old }
        ensures same { IsSameSeat seat.old seat.new }
        ensures kept { seat.new.me ≡ (one_more_away (view_of seat.old), seat.old.me.1) }
        ensures new { IsSeatOf self.now result × (result.me ≡ (newcomer (handed_in self.now), [])) }
    {
        self.table.shared.split_seat::<Lending>(seat)
    }

    /// The first seat takes over the list of a seat that was told none.
    pub fn join(&self, into: &mut Seat<P>, other: Seat<P>)
        requires board { IsSeatOf self.now into.old × IsSeatOf self.now other }
        requires first { (view_of into.old).first ≡ true }
        requires finished { IsFinished other }
        ensures same { IsSameSeat into.old into.new }
        ensures gained { into.new.me ≡ (joined (view_of into.old) (view_of other), into.old.me.1) }
        ensures once { NoTwice (view_of into.new).entries }
    {
        self.table.shared.join_seat::<Lending>(into, other);
        // The join itself tells nothing of the table, so the seat looks once more.
        self.table.shared.load::<Looking>(into, NEXT);
    }

    /// The pieces in order of their numbers, each as it was put. After Memory the pieces are gone.
    pub fn close(self, alloc: Global, seat: Seat<P>) -> Result<Vec<P>, Memory>
    where
        P: Drop,
        requires board { IsSeatOf self seat }
        requires over { MayClose seat }
        ensures whole { IfOk result (λ v. IsWhole v.items (view_of seat)) }
    {
        let pieces = Vec::with_capacity(alloc, self.count)?;
        let Board { table, count: _ } = self;
        Ok(emptied(table.close_with(seat), pieces))
    }
}
