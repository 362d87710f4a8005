ghost use Rattle.std.specs.Prelude.{◌≡◌, length, IfOk, IfSome, IfNone};
ghost use Rattle.mq_claims.specs.Calls.{IsSeatOf, IsAsFirst, MayClaim, IsFinished};

use crate::{Board, MAX_PIECES, Seat};
use mq_values::Memory;
use std::alloc::Global;
use std::test::Fail;
use std::thread;
use std::thread::Threads;

// The numbers below `count`.
fn numbers(alloc: Global, count: usize) -> Result<Vec<usize>, Memory>
    ensures { IfOk result (λ v. length v.items ≡ count) }
{
    Ok((0..count).collect(alloc)?)
}

// Whether there are `count` pieces, and each was put with 5,000 added to its number.
fn each_was_put(pieces: &[usize], count: usize) -> bool {
    pieces.len() == count
        && pieces
            .iter()
            .enumerate()
            .all(|(k, piece)| *piece == k.wrapping_add(5000))
}

// Claims a piece, and puts it with 5,000 added.
fn claim_and_put(board: &Board<usize>, seat: &mut Seat<usize>) -> Option<u32>
    requires own { IsSeatOf board.now seat.old }
    requires free { MayClaim seat.old }
    ensures own { IsSeatOf board.now seat.new }
    ensures first { IsAsFirst seat.old seat.new }
    ensures free { IfSome result (λ _. MayClaim seat.new) }
    ensures told { IfNone result (IsFinished seat.new) }
{
    let k = board.claim(seat)?;
    let piece = board.take(seat, k);
    board.put(seat, k, piece.wrapping_add(5000));
    Some(k)
}

// Goes on until the seat is told none, at most this many times.
fn work(board: &Board<usize>, mut seat: Seat<usize>, turns: usize) -> Option<Seat<usize>>
    requires own { IsSeatOf board.now seat }
    requires free { MayClaim seat }
    ensures { IfSome result (λ s. IsSeatOf board.now s × IsFinished s × IsAsFirst seat s) }
{
    'claims: for _ in 0..turns {
        if claim_and_put(board, &mut seat).is_none() {
            return Some(seat);
        }
    }
    None
}

// Two seats, each on a thread of its own.
fn work_beside(
    rt: &(impl Threads + Sync),
    board: &Board<usize>,
    one: Seat<usize>,
    other: Seat<usize>,
    turns: usize,
) -> Option<(Seat<usize>, Seat<usize>)>
    requires own { IsSeatOf board.now one × IsSeatOf board.now other }
    requires free { MayClaim one × MayClaim other }
    ensures one { IfSome result (λ r. IsSeatOf board.now r.0 × IsFinished r.0 × IsAsFirst one r.0) }
    ensures other { IfSome result (λ r. IsSeatOf board.now r.1 × IsFinished r.1) }
{
    let (one, other) = thread::join(
        rt,
        move ||
            requires { IsSeatOf board.now one × MayClaim one }
            ensures { IfSome result (λ s. IsSeatOf board.entry.now s × IsFinished s × IsAsFirst one s) }
        { work(board, one, turns) },
        move ||
            requires { IsSeatOf board.now other × MayClaim other }
            ensures { IfSome result (λ s. IsSeatOf board.entry.now s × IsFinished s) }
        { work(board, other, turns) },
    );
    Some((one?, other?))
}

#[test]
fn three_pieces_are_claimed_in_turn(rt: HostRuntime) -> Result<(), Fail> {
    let (board, mut one) = Board::new(rt.alloc(), numbers(rt.alloc(), 3)?, 2)?;
    let mut two = board.split(&mut one);
    let Some(first) = claim_and_put(&board, &mut one) else {
        panic!(rt; "none was claimed")
    };
    let Some(second) = claim_and_put(&board, &mut two) else {
        panic!(rt; "one was claimed")
    };
    let Some(third) = claim_and_put(&board, &mut one) else {
        panic!(rt; "two were claimed")
    };
    assert!(rt; [first, second, third] == [0, 1, 2]);
    let (None, None) = (
        claim_and_put(&board, &mut two),
        claim_and_put(&board, &mut one),
    ) else {
        panic!(rt; "all were claimed")
    };
    board.join(&mut one, two);
    let pieces = board.close(rt.alloc(), one)?;
    assert!(rt; pieces.as_slice() == [5000, 5001, 5002].as_slice());
    Ok(())
}

#[test]
fn a_thousand_pieces_over_two_threads(rt: HostRuntime) -> Result<(), Fail> {
    let (board, mut one) = Board::new(rt.alloc(), numbers(rt.alloc(), 1000)?, 2)?;
    let two = board.split(&mut one);
    let Some((mut one, two)) = work_beside(&rt, &board, one, two, 1001) else {
        panic!(rt; "a seat was not told none")
    };
    board.join(&mut one, two);
    let pieces = board.close(rt.alloc(), one)?;
    assert!(rt; each_was_put(pieces.as_slice(), 1000));
    Ok(())
}

// Two pairs of seats, each pair on two threads.
fn work_by_fours(
    rt: &(impl Threads + Sync),
    board: &Board<usize>,
    pairs: ((Seat<usize>, Seat<usize>), (Seat<usize>, Seat<usize>)),
    turns: usize,
) -> Option<((Seat<usize>, Seat<usize>), (Seat<usize>, Seat<usize>))>
    requires own { IsSeatOf board.now pairs.0.0 × IsSeatOf board.now pairs.0.1 }
    requires others_own { IsSeatOf board.now pairs.1.0 × IsSeatOf board.now pairs.1.1 }
    requires free { MayClaim pairs.0.0 × MayClaim pairs.0.1 × MayClaim pairs.1.0 × MayClaim pairs.1.1 }
    ensures own { IfSome result (λ r. IsSeatOf board.now r.0.0 × IsSeatOf board.now r.0.1) }
    ensures others_own { IfSome result (λ r. IsSeatOf board.now r.1.0 × IsSeatOf board.now r.1.1) }
    ensures told { IfSome result (λ r. IsFinished r.0.0 × IsFinished r.0.1 × IsFinished r.1.0 × IsFinished r.1.1) }
    ensures first { IfSome result (λ r. IsAsFirst pairs.0.0 r.0.0) }
{
    let (pair, others) = pairs;
    let (pair, others) = thread::join(
        rt,
        move ||
            requires { IsSeatOf board.now pair.0 × MayClaim pair.0 × IsSeatOf board.now pair.1 × MayClaim pair.1 }
            ensures own { IfSome result (λ r. IsSeatOf board.entry.now r.0 × IsSeatOf board.entry.now r.1) }
            ensures told { IfSome result (λ r. IsFinished r.0 × IsFinished r.1) }
            ensures first { IfSome result (λ r. IsAsFirst pair.0 r.0) }
        { work_beside(rt, board, pair.0, pair.1, turns) },
        move ||
            requires { IsSeatOf board.now others.0 × MayClaim others.0 × IsSeatOf board.now others.1 × MayClaim others.1 }
            ensures own { IfSome result (λ r. IsSeatOf board.entry.now r.0 × IsSeatOf board.entry.now r.1) }
            ensures told { IfSome result (λ r. IsFinished r.0 × IsFinished r.1) }
        { work_beside(rt, board, others.0, others.1, turns) },
    );
    Some((pair?, others?))
}

#[test]
fn a_thousand_pieces_over_four_threads(rt: HostRuntime) -> Result<(), Fail> {
    let (board, mut one) = Board::new(rt.alloc(), numbers(rt.alloc(), 1000)?, 4)?;
    let two = board.split(&mut one);
    let three = board.split(&mut one);
    let four = board.split(&mut one);
    let pairs = ((one, two), (three, four));
    let Some(((mut one, two), (three, four))) = work_by_fours(&rt, &board, pairs, 1001) else {
        panic!(rt; "a seat was not told none")
    };
    board.join(&mut one, two);
    board.join(&mut one, three);
    board.join(&mut one, four);
    let pieces = board.close(rt.alloc(), one)?;
    assert!(rt; each_was_put(pieces.as_slice(), 1000));
    Ok(())
}

#[test]
fn a_board_of_nothing_is_closed_at_once(rt: HostRuntime) -> Result<(), Fail> {
    let (board, mut seat) = Board::<usize>::new(rt.alloc(), Vec::new(rt.alloc()), 1)?;
    if board.claim(&mut seat).is_some() {
        panic!(rt; "there is nothing to claim")
    }
    let pieces = board.close(rt.alloc(), seat)?;
    assert!(rt; pieces.is_empty());
    Ok(())
}

#[test]
fn as_many_pieces_as_a_board_may_have(rt: HostRuntime) -> Result<(), Fail> {
    let (board, seat) = Board::new(rt.alloc(), numbers(rt.alloc(), MAX_PIECES)?, 1)?;
    let Some(seat) = work(&board, seat, MAX_PIECES + 1) else {
        panic!(rt; "the seat was not told none")
    };
    let pieces = board.close(rt.alloc(), seat)?;
    assert!(rt; each_was_put(pieces.as_slice(), MAX_PIECES));
    Ok(())
}
