//! A list of pieces run by several workers.

ghost use Rattle.std.specs.Prelude.{◌≡◌, ◌<◌, ◌≤◌, true, [], All, length, IfOk, vec_len};
ghost use Rattle.std.specs.List.{AllZip};
ghost use Rattle.mq_claims.specs.declared.limits.TheConstants.{MAX_PIECES, MAX_SEATS};
ghost use Rattle.mq_claims.specs.Calls.{handed_in, view_of, IsSeatOf, MayClaim};
ghost use Rattle.mq_workers.specs.Runs.{IsNew, HasWorked, IsFirstDone};

use crate::pieces::Piece;
use crate::seats::{lent, run_lent, taken_back};
use crate::worker::work;
use mq_claims::{Board, Seat};
use mq_io::Gate;
use mq_values::Memory;
use std::alloc::Global;
use std::thread::{Threads, join};

// As many seats as workers, but no more than there are pieces, and one at least.
fn seats_for(count: usize, workers: u32) -> u32
    requires workers { 0 < workers }
    ensures bound { (0 < result) × (result ≤ workers) }
    ensures needed { count ≤ 1 → result ≡ 1 }
{
    if count >= workers as usize {
        workers
    } else if count == 0 {
        1
    } else {
        count as u32
    }
}

// The board's pieces worked by its first seat and by as many others, each on a thread of its own.
fn run_board<P: Piece, G: Gate, R: Threads + Sync>(
    rt: &R,
    alloc: Global,
    board: &Board<P>,
    mut first: Seat<P>,
    others: u32,
    gate: &G,
) -> Result<Seat<P>, Memory>
    requires own { IsSeatOf board.now first }
    requires free { MayClaim first }
    requires first { ((view_of first).first ≡ true) × ((view_of first).away ≡ 0) }
    requires splits { others ≤ (view_of first).splits }
    requires empty { (view_of first).entries ≡ [] }
    requires ready { All P.ready (handed_in board.now) }
    ensures { IfOk result (λ seat. IsFirstDone P.ran board.now seat 0) }
{
    if others == 0 {
        return Ok(work(board, first, gate));
    }
    let seats = lent(alloc, board, &mut first, others)?;
    let (first, lent) = join(
        rt,
        move || -> Seat<P>
            requires own { IsSeatOf board.now first }
            requires free { MayClaim first }
            requires first { (view_of first).first ≡ true }
            requires empty { (view_of first).entries ≡ [] }
            requires ready { All P.ready (handed_in board.now) }
            ensures { IsFirstDone P.ran board.entry.now result (view_of first).away }
        { work(board, first, gate) },
        move || -> Result<Vec<Seat<P>>, Memory>
            requires new { All (IsNew board.now) seats.items }
            requires ready { All P.ready (handed_in board.now) }
            ensures count { IfOk result (λ v. vec_len v ≡ vec_len seats) }
            ensures worked { IfOk result (λ v. All (HasWorked P.ran board.entry.now) v.items) }
        { run_lent(rt, alloc, board, seats, gate) },
    );
    Ok(taken_back(board, first, lent?))
}

/// The pieces, each run once by one of the workers, in the order in which they came. Each piece that starts is told to
/// the gate by its number. With one worker, or one piece, no thread is started. After Memory the pieces are gone
/// (docs/MEANING.md, "The workers").
pub fn run_pieces<P: Piece, G: Gate>(
    rt: &(impl Threads + Sync),
    alloc: Global,
    pieces: Vec<P>,
    workers: u32,
    gate: &G,
) -> Result<Vec<P>, Memory>
    requires workers { (0 < workers) × (workers ≤ MAX_SEATS) }
    requires few { length pieces.items ≤ MAX_PIECES }
    requires ready { All P.ready pieces.items }
    ensures ran { IfOk result (λ v. AllZip P.ran pieces.items v.items) }
{
    let seats = seats_for(pieces.len(), workers);
    let (board, first) = Board::new(alloc, pieces, seats)?;
    let first = run_board(rt, alloc, &board, first, seats - 1, gate)?;
    board.close(alloc, first)
}
