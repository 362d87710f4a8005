ghost use Rattle.std.specs.Prelude.{◌≡◌, ◌*◌, ◌<◌, ◌≤◌, length, IfOk, vec_capacity};
ghost use Rattle.mq_claims.specs.declared.limits.TheConstants.{MAX_PIECES, MAX_SEATS};

use crate::{Piece, run_pieces};
use mq_io::{Gate, OpenGate};
use mq_values::Memory;
use std::alloc::Global;
use std::sync::atomic::{AtomicU64, Ordering};
use std::test::Fail;
use std::thread::Threads;

// A number, which a run doubles.
#[derive(Drop)]
struct Doubling {
    number: u32,
    doubled: u64,
    runs: u64,
}

impl Piece for Doubling {
    ghost ready = { λ _. Unit {0} };

    ghost ran = { λ before after. after.doubled ≡ 2 * before.number };

    fn run(&mut self) {
        self.doubled = 2 * self.number as u64;
        self.runs = self.runs.wrapping_add(1);
    }
}

// The numbers below `count`, none doubled yet.
fn numbers(alloc: Global, count: u32) -> Result<Vec<Doubling>, Memory>
    ensures { IfOk result (λ v. length v.items ≡ count) }
{
    let pieces = (0..count).map(|number| Doubling {
        number,
        doubled: 0,
        runs: 0,
    });
    Ok(pieces.collect(alloc)?)
}

// Whether there are `count` pieces in order, each doubled by one run.
fn each_was_run(pieces: &[Doubling], count: u32) -> bool {
    pieces.len() == count as usize
        && pieces.iter().enumerate().all(|(k, piece)| {
            piece.number as usize == k
                && piece.doubled as usize == k.wrapping_mul(2)
                && piece.runs == 1
        })
}

// Whether this many workers double this many numbers, each once and in order.
fn doubles<R: Threads + Sync>(
    rt: &R,
    alloc: Global,
    workers: u32,
    count: u32,
) -> Result<bool, Memory>
    requires workers { (0 < workers) × (workers ≤ MAX_SEATS) }
    requires few { count ≤ MAX_PIECES }
{
    let pieces = run_pieces(rt, alloc, numbers(alloc, count)?, workers, &OpenGate)?;
    Ok(each_was_run(pieces.as_slice(), count))
}

// Whether this many workers double no number, one, two and a hundred.
fn doubles_few_and_many<R: Threads + Sync>(
    rt: &R,
    alloc: Global,
    workers: u32,
) -> Result<bool, Memory>
    requires workers { (0 < workers) × (workers ≤ MAX_SEATS) }
{
    let few = doubles(rt, alloc, workers, 0)? & doubles(rt, alloc, workers, 1)?;
    let many = doubles(rt, alloc, workers, 2)? & doubles(rt, alloc, workers, 100)?;
    Ok(few & many)
}

#[test]
fn any_number_of_workers_gives_the_same_list(rt: HostRuntime) -> Result<(), Fail> {
    assert!(rt; doubles_few_and_many(&rt, rt.alloc(), 1)?);
    assert!(rt; doubles_few_and_many(&rt, rt.alloc(), 2)?);
    assert!(rt; doubles_few_and_many(&rt, rt.alloc(), 7)?);
    assert!(rt; doubles_few_and_many(&rt, rt.alloc(), 64)?);
    Ok(())
}

// A wish for room, which a run meets where memory allows.
#[derive(Drop)]
struct Wish {
    alloc: Global,
    wanted: usize,
    room: Result<Vec<u64>, Memory>,
}

fn room(alloc: Global, wanted: usize) -> Result<Vec<u64>, Memory>
    ensures { IfOk result (λ v. wanted ≤ vec_capacity v) }
{
    Ok(Vec::with_capacity(alloc, wanted)?)
}

impl Piece for Wish {
    ghost ready = { λ _. Unit {0} };

    ghost ran = { λ before after. IfOk after.room (λ v. before.wanted ≤ vec_capacity v) };

    fn run(&mut self) {
        self.room = room(self.alloc, self.wanted);
    }
}

// Three wishes, of which no machine has room for the second.
fn wishes(alloc: Global) -> Result<Vec<Wish>, Memory>
    ensures { IfOk result (λ v. length v.items ≡ 3) }
{
    let wishes = (0u32..3).map(|k| Wish {
        alloc,
        wanted: if k == 1 { 1 << 59 } else { 8 },
        room: Ok(Vec::new(alloc)),
    });
    Ok(wishes.collect(alloc)?)
}

#[test]
fn a_piece_keeps_that_memory_ran_out(rt: HostRuntime) -> Result<(), Fail> {
    let pieces = run_pieces(&rt, rt.alloc(), wishes(rt.alloc())?, 2, &OpenGate)?;
    let [first, second, third] = pieces.as_slice() else {
        panic!(rt; "three pieces were handed in")
    };
    assert!(rt; first.room.is_ok() && second.room.is_err() && third.room.is_ok());
    Ok(())
}

// How often a piece that is held back looks for the others.
const TURNS: u64 = 1 << 31;

// Holds one piece back, or each, until all have entered.
#[derive(Drop)]
struct HoldsBack {
    held: Option<u32>,
    all: u64,
    entered: AtomicU64,
    saw_all: AtomicU64,
}

impl HoldsBack {
    fn new(held: Option<u32>, all: u64) -> HoldsBack {
        HoldsBack {
            held,
            all,
            entered: AtomicU64::new(0),
            saw_all: AtomicU64::new(0),
        }
    }

    fn holds(&self, piece: u32) -> bool {
        match self.held {
            Some(held) => held == piece,
            None => true,
        }
    }
}

impl Gate for HoldsBack {
    fn enter(&self, piece: u32) {
        self.entered.fetch_add(1, Ordering::SeqCst);
        if !self.holds(piece) {
            return;
        }
        for _ in 0..TURNS {
            if self.entered.load(Ordering::SeqCst) == self.all {
                self.saw_all.fetch_add(1, Ordering::SeqCst);
                return;
            }
        }
    }
}

// How many of four pieces that were held back saw all enter.
fn who_saw_all<R: Threads + Sync>(
    rt: &R,
    alloc: Global,
    workers: u32,
    held: Option<u32>,
) -> Result<u64, Memory>
    requires workers { (0 < workers) × (workers ≤ MAX_SEATS) }
{
    let gate = HoldsBack::new(held, 4);
    run_pieces(rt, alloc, numbers(alloc, 4)?, workers, &gate)?;
    Ok(gate.saw_all.load(Ordering::SeqCst))
}

#[test]
fn what_one_worker_holds_back_holds_no_other_piece_back(rt: HostRuntime) -> Result<(), Fail> {
    for held in 0..4 {
        assert!(rt; who_saw_all(&rt, rt.alloc(), 2, Some(held))? == 1);
    }
    Ok(())
}

#[test]
fn four_workers_run_four_pieces_at_once(rt: HostRuntime) -> Result<(), Fail> {
    assert!(rt; who_saw_all(&rt, rt.alloc(), 4, None)? == 4);
    Ok(())
}
