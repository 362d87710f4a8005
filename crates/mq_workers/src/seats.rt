//! Seats lent out, worked on threads by halves of their list, and taken back.

ghost use Rattle.std.specs.Prelude.{◌≡◌, ◌+◌, ◌≤◌, true, [], All, IfOk, vec_len};
ghost use Rattle.std.specs.Thread.{IsSync};
ghost use Rattle.mq_claims.specs.Calls.{handed_in, view_of, IsSeatOf, MayClaim};
ghost use Rattle.mq_workers.specs.Runs.{IsNew, HasWorked, IsFirstDone};

use crate::pieces::Piece;
use crate::worker::work;
use mq_claims::{Board, Seat};
use mq_io::Gate;
use mq_values::Memory;
use std::alloc::Global;
use std::thread::{Threads, join};

/// As many seats split from the first one as are asked for.
pub(crate) fn lent<P: Piece>(
    alloc: Global,
    board: &Board<P>,
    first: &mut Seat<P>,
    count: u32,
) -> Result<Vec<Seat<P>>, Memory>
    requires own { IsSeatOf board.now first.old }
    requires free { MayClaim first.old }
    requires first { ((view_of first.old).first ≡ true) × ((view_of first.old).away ≡ 0) }
    requires splits { count ≤ (view_of first.old).splits }
    requires empty { (view_of first.old).entries ≡ [] }
    ensures own { IsSeatOf board.now first.new }
    ensures free { IfOk result (λ _. MayClaim first.new) }
    ensures first { (view_of first.new).first ≡ true }
    ensures away { IfOk result (λ _. (view_of first.new).away ≡ count) }
    ensures empty { (view_of first.new).entries ≡ [] }
    ensures count { IfOk result (λ v. vec_len v ≡ count) }
    ensures new { IfOk result (λ v. All (IsNew board.now) v.items) }
{
    let mut lent = Vec::with_capacity(alloc, count as usize)?;
    for _ in 0..count {
        lent.push_reserved(board.split(first));
    }
    Ok(lent)
}

// One seat at most, worked where it is.
fn run_one<P: Piece, G: Gate>(board: &Board<P>, mut seats: Vec<Seat<P>>, gate: &G) -> Vec<Seat<P>>
    requires new { All (IsNew board.now) seats.items }
    requires one { vec_len seats ≤ 1 }
    requires ready { All P.ready (handed_in board.now) }
    ensures count { vec_len result ≡ vec_len seats }
    ensures worked { All (HasWorked P.ran board.now) result.items }
{
    if let Some(seat) = seats.pop() {
        seats.push_reserved(work(board, seat, gate));
    }
    seats
}

/// Each seat worked on a thread of its own: a list of more than one is halved, and the halves are worked beside one another.
pub(crate) fn run_lent<P: Piece, G: Gate, R: Threads + Sync>(
    rt: &R,
    alloc: Global,
    board: &Board<P>,
    mut seats: Vec<Seat<P>>,
    gate: &G,
) -> Result<Vec<Seat<P>>, Memory>
    requires new { All (IsNew board.now) seats.items }
    requires ready { All P.ready (handed_in board.now) }
    ensures count { IfOk result (λ v. vec_len v ≡ vec_len seats) }
    ensures worked { IfOk result (λ v. All (HasWorked P.ran board.now) v.items) }
{
    if seats.len() < 2 {
        return Ok(run_one(board, seats, gate));
    }
    let others = seats.split_off(seats.len() / 2)?;
    let (one, other) = join(
        rt,
        move || -> Result<Vec<Seat<P>>, Memory>
            requires sync { IsSync R.row }
            requires new { All (IsNew board.now) seats.items }
            requires ready { All P.ready (handed_in board.now) }
            ensures count { IfOk result (λ v. vec_len v ≡ vec_len seats) }
            ensures worked { IfOk result (λ v. All (HasWorked P.ran board.entry.now) v.items) }
        { run_lent(rt, alloc, board, seats, gate) },
        move || -> Result<Vec<Seat<P>>, Memory>
            requires sync { IsSync R.row }
            requires new { All (IsNew board.now) others.items }
            requires ready { All P.ready (handed_in board.now) }
            ensures count { IfOk result (λ v. vec_len v ≡ vec_len others) }
            ensures worked { IfOk result (λ v. All (HasWorked P.ran board.entry.now) v.items) }
        { run_lent(rt, alloc, board, others, gate) },
    );
    let mut all = one?;
    let mut rest = other?;
    all.append(&mut rest)?;
    Ok(all)
}

/// The lent seats joined into the first one.
pub(crate) fn taken_back<P: Piece>(
    board: &Board<P>,
    mut first: Seat<P>,
    mut lent: Vec<Seat<P>>,
) -> Seat<P>
    requires first { IsFirstDone P.ran board.now first (vec_len lent) }
    requires worked { All (HasWorked P.ran board.now) lent.items }
    ensures { IsFirstDone P.ran board.now result 0 }
{
    'lent: while let Some(seat) = lent.pop() {
        board.join(&mut first, seat);
    }
    first
}
