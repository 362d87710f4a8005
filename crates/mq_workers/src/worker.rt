//! One worker: it claims, takes, runs and puts, until it is told none.

ghost use Rattle.std.specs.Prelude.{◌≡◌, ◌<◌, All, length, IfSome, IfNone};
ghost use Rattle.mq_claims.specs.Views.{AllBelow};
ghost use Rattle.mq_claims.specs.Calls.{handed_in, view_of, IsSeatOf, IsAsFirst, MayClaim, IsFinished};
ghost use Rattle.mq_workers.specs.Runs.{EachIsRun, GainsRun};

use crate::pieces::Piece;
use mq_claims::{Board, Seat};
use mq_io::Gate;

// The piece after one run, of which the gate is told first.
fn after_run<P: Piece, G: Gate>(k: u32, mut piece: P, gate: &G) -> P
    requires ready { P.ready piece }
    ensures ran { P.ran piece result }
{
    gate.enter(k);
    piece.run();
    piece
}

// Claims a number and puts its piece, run once. None where there is no more to claim.
fn run_next<P: Piece, G: Gate>(board: &Board<P>, seat: &mut Seat<P>, gate: &G) -> Option<u32>
    requires own { IsSeatOf board.now seat.old }
    requires free { MayClaim seat.old }
    requires ready { All P.ready (handed_in board.now) }
    ensures own { IsSeatOf board.now seat.new }
    ensures first { IsAsFirst seat.old seat.new }
    ensures free { IfSome result (λ _. MayClaim seat.new) }
    ensures number { IfSome result (λ k. (k < length (handed_in board.now)) × AllBelow k (view_of seat.old).entries) }
    ensures ran { IfSome result (λ k. GainsRun P.ran (handed_in board.now) k (view_of seat.old).entries (view_of seat.new).entries) }
    ensures told { IfNone result (IsFinished seat.new) }
    ensures same { IfNone result ((view_of seat.new).entries ≡ (view_of seat.old).entries) }
{
    let k = board.claim(seat)?;
    let piece = board.take(seat, k);
    let done = after_run(k, piece, gate);
    board.put(seat, k, done);
    Some(k)
}

/// Runs every piece that the seat can claim. It has no handle, so it starts no thread.
pub(crate) fn work<P: Piece, G: Gate>(board: &Board<P>, mut seat: Seat<P>, gate: &G) -> Seat<P>
    requires own { IsSeatOf board.now seat }
    requires free { MayClaim seat }
    requires ready { All P.ready (handed_in board.now) }
    requires ran { EachIsRun P.ran (handed_in board.now) (view_of seat).entries }
    ensures own { IsSeatOf board.now result }
    ensures first { IsAsFirst seat result }
    ensures told { IsFinished result }
    ensures ran { EachIsRun P.ran (handed_in board.now) (view_of result).entries }
{
    'claims: while run_next(board, &mut seat, gate).is_some() {}
    seat
}
