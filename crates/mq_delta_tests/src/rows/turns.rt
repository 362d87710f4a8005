//! Many changes by a fixed rule of numbers, beside what is computed from nothing.
ghost use Rattle.std.specs.Prelude.{◌<◌};
ghost use Rattle.mq_tables.specs.Held.{RowsFit};
ghost use Rattle.mq_tables.specs.Staging.{StandsOn};

use crate::makers::boxed;
use crate::rows::changes::{Step, empty_tables, made};
use crate::rows::queries::{Query, from_part_of};
use crate::rows::told::{Found, rows_after, write_kept};
use mq_delta_base::{KeptRows, kept_rows_in};
use mq_ir::FromPart;
use mq_tables::{Staged, Tables};
use mq_values::{Memory, QueryFault};
use std::alloc::Global;

// Numbers by a fixed rule, so that each run is the same.
#[derive(Drop)]
struct Numbers {
    state: u64,
}

impl Numbers {
    fn below(&mut self, count: u8) -> u8
        requires { 0 < count }
        ensures { result < count }
    {
        self.state = self
            .state
            .wrapping_mul(6364136223846793005)
            .wrapping_add(1442695040888963407);
        ((self.state >> 33) % count as u64) as u8
    }
}

fn next_step(numbers: &mut Numbers) -> Step {
    let key = i128::from(numbers.below(6));
    let beside = i128::from(numbers.below(5));
    match numbers.below(3) {
        0 => Step::Insert(key, beside),
        1 => Step::Update(key, beside),
        _ => Step::Delete(key),
    }
}

// One step to three.
fn next_steps(alloc: Global, numbers: &mut Numbers) -> Result<Vec<Step>, Memory> {
    let mut steps = Vec::new(alloc);
    for _ in 0..numbers.below(3) + 1 {
        steps.push(next_step(numbers))?;
    }
    Ok(steps)
}

// Whether both are the same kept rows, or the same fault.
fn is_same(
    alloc: Global,
    a: &Result<KeptRows, QueryFault>,
    b: &Result<KeptRows, QueryFault>,
) -> Result<bool, Memory> {
    let mut left = Vec::new(alloc);
    write_kept(a, &mut left)?;
    let mut right = Vec::new(alloc);
    write_kept(b, &mut right)?;
    Ok(left.as_slice() == right.as_slice())
}

/// How often the right rows or the right fault were found after a change, and how often something else.
#[derive(Drop)]
pub struct Tally {
    pub rows: usize,
    pub faults: usize,
    pub wrong: usize,
}

impl Tally {
    fn note(&mut self, is_fault: bool, is_same: bool) {
        if !is_same {
            self.wrong = self.wrong.saturating_add(1);
        } else if is_fault {
            self.faults = self.faults.saturating_add(1);
        } else {
            self.rows = self.rows.saturating_add(1);
        }
    }
}

fn next_table(numbers: &mut Numbers) -> &'static str {
    if numbers.below(2) == 0 { "T" } else { "U" }
}

// Notes whether what was found is what is computed from nothing.
fn note_found(
    alloc: Global,
    q: &FromPart,
    tables: &Tables,
    found: &Result<KeptRows, QueryFault>,
    tally: &mut Tally,
) -> Result<(), Memory> {
    let afresh = boxed(alloc, kept_rows_in(alloc, q, tables))?;
    let same = is_same(alloc, found, afresh.get())?;
    tally.note(afresh.get().is_err(), same);
    Ok(())
}

fn note(
    alloc: Global,
    q: &FromPart,
    tables: &Tables,
    found: Option<Found>,
    tally: &mut Tally,
) -> Result<(), Memory> {
    match &found {
        Some(found) => note_found(alloc, q, tables, &found.after, tally),
        None => Ok(()),
    }
}

// Puts in what is staged, and notes whether what is found after it is what is computed from nothing over the tables then.
fn turn_by(
    alloc: Global,
    q: &FromPart,
    tables: &mut Tables,
    staged: Staged,
    tally: &mut Tally,
) -> Result<(), Memory>
    requires fit { RowsFit tables.old }
    requires staged { StandsOn tables.old staged }
    ensures { RowsFit tables.new }
{
    let found = rows_after(alloc, q, tables, &staged)?;
    tables.commit(staged);
    note(alloc, q, tables, found, tally)
}

// The same with a change of one of the tables by the next numbers, unless it is refused.
fn turn(
    alloc: Global,
    q: &FromPart,
    tables: &mut Tables,
    numbers: &mut Numbers,
    tally: &mut Tally,
) -> Result<(), Memory>
    requires { RowsFit tables.old }
    ensures { RowsFit tables.new }
{
    let name = next_table(numbers);
    let steps = next_steps(alloc, numbers)?;
    match made(alloc, tables, name, steps.as_slice())? {
        Some(staged) => turn_by(alloc, q, tables, staged, tally),
        None => Ok(()),
    }
}

fn run(alloc: Global, q: &FromPart) -> Result<Tally, Memory> {
    let mut numbers = Numbers { state: 1 };
    let mut tally = Tally {
        rows: 0,
        faults: 0,
        wrong: 0,
    };
    let mut tables = empty_tables(alloc)?;
    'turns: for _ in 0..600 {
        turn(alloc, q, &mut tables, &mut numbers, &mut tally)?;
    }
    Ok(tally)
}

/// What comes of six hundred changes one after another.
pub fn run_of(alloc: Global, query: Query) -> Result<Tally, Memory> {
    let q = from_part_of(alloc, query)?;
    run(alloc, q.get())
}
