//! What each assignment reads, as runs of places of one measure.
ghost use Rattle.std.specs.Prelude.{◌≡◌, ◌<◌, ◌≤◌, [], true, false, None, Some, length, IfSome, MatchOption};
ghost use Rattle.std.specs.List.{All, Contains, cons_option, list_all};
ghost use Rattle.mq_levels.specs.Numbers.{has_number};
ghost use Rattle.mq_levels.specs.Places.{EndsOpen};
ghost use Rattle.mq_auto_shape.specs.LaneRuns.{left_of, numbers_in, numbers_of};
ghost use Rattle.mq_cells.specs.LaneItems.{lane_item};

use crate::numbers::Numbers;
use mq_levels::{Open, Reads};
use mq_values::Items;

/// What is assigned at the places from `first` to before `past`, of one measure.
#[derive(Clone, Copy, Drop)]
pub struct LaneRun {
    pub measure: u32,
    pub first: u32,
    pub past: u32,
}

/// A place in runs: what is left are the first `whole` of them and, behind these, `run`.
#[derive(Clone, Copy, Drop)]
pub struct LanePlace {
    whole: usize,
    run: LaneRun,
}

/// For each assignment, by its number, the runs that it reads. A read is the number that stands at a place of a run, so runs
/// take no more memory where there are several measures, whose numbers do not follow one another.
#[derive(Clone, Copy, Drop)]
pub struct LaneReads<'a> {
    pub numbers: &'a Numbers<'a>,
    pub lists: &'a [Items<LaneRun>],
}

// The first number of a run.
fn first_of(numbers: &Numbers<'_>, run: LaneRun) -> Option<u32>
    ensures { MatchOption result (numbers_in numbers.now.lanes run ≡ []) (Contains (numbers_in numbers.now.lanes run)) }
{
    let mut at = run.first;
    'looking: while at < run.past {
        if let Some(number) = numbers.at(run.measure, at) {
            return Some(number);
        }
        at += 1;
    }
    None
}

// The first number of runs.
fn first_in(numbers: &Numbers<'_>, runs: &[LaneRun]) -> Option<u32>
    ensures { MatchOption result (numbers_of numbers.now.lanes runs.now ≡ []) (Contains (numbers_of numbers.now.lanes runs.now)) }
{
    'runs: for run in runs {
        if let Some(number) = first_of(numbers, *run) {
            return Some(number);
        }
    }
    None
}

// The number at a place, where it has no round yet.
fn open_at(numbers: &Numbers<'_>, m: u32, place: u32, rounds: &[Option<u32>]) -> Option<u32>
    requires { All (λ read. read < length rounds.now) (cons_option (lane_item numbers.now.lanes m place) []) }
    ensures none { result ≡ None → list_all (has_number rounds.now) (cons_option (lane_item numbers.now.lanes m place) []) ≡ true }
    ensures there { IfSome result (λ node. lane_item numbers.now.lanes m place ≡ Some node) }
    ensures open { IfSome result (λ node. has_number rounds.now node ≡ false) }
{
    match numbers.at(m, place) {
        Some(node) if rounds[node as usize].is_none() => Some(node),
        _ => None,
    }
}

// The last number of a run that has no round yet, with what is left of the run.
fn last_open_of(
    numbers: &Numbers<'_>,
    run: LaneRun,
    rounds: &[Option<u32>],
) -> Option<Open<LaneRun>>
    requires { All (λ read. read < length rounds.now) (numbers_in numbers.now.lanes run) }
    ensures none { result ≡ None → list_all (has_number rounds.now) (numbers_in numbers.now.lanes run) ≡ true }
    ensures ends { IfSome result (λ found.
        EndsOpen rounds.now (numbers_in numbers.now.lanes run) (numbers_in numbers.now.lanes found.place) found.read) }
{
    let mut past = run.past;
    'looking: while past > run.first {
        let at = past - 1;
        if let Some(read) = open_at(numbers, run.measure, at, rounds) {
            return Some(Open {
                read,
                place: LaneRun { past, ..run },
            });
        }
        past = at;
    }
    None
}

// The last number left that has no round yet.
fn last_open_in(
    numbers: &Numbers<'_>,
    runs: &[LaneRun],
    place: LanePlace,
    rounds: &[Option<u32>],
) -> Option<Open<LanePlace>>
    requires place { place.whole ≤ length runs.now }
    requires within { All (λ read. read < length rounds.now) (left_of numbers.now.lanes runs.now place) }
    ensures none { result ≡ None → list_all (has_number rounds.now) (left_of numbers.now.lanes runs.now place) ≡ true }
    ensures place { IfSome result (λ found. found.place.whole ≤ length runs.now) }
    ensures ends { IfSome result (λ found.
        EndsOpen rounds.now (left_of numbers.now.lanes runs.now place) (left_of numbers.now.lanes runs.now found.place) found.read) }
{
    let mut at = place;
    'looking: loop {
        if let Some(open) = last_open_of(numbers, at.run, rounds) {
            return Some(Open {
                read: open.read,
                place: LanePlace {
                    whole: at.whole,
                    run: open.place,
                },
            });
        }
        if at.whole == 0 {
            return None;
        }
        at = LanePlace {
            whole: at.whole - 1,
            run: runs[at.whole - 1],
        };
    }
}

// No places.
const NO_RUN: LaneRun = LaneRun {
    measure: 0,
    first: 0,
    past: 0,
};

impl Reads for LaneReads<'_> {
    type Place = LanePlace;

    ghost use Rattle.std.specs.Prelude.{◌≤◌, length};
    ghost use Rattle.mq_auto_shape.specs.LaneRuns.{left_of, reads_in_lanes, runs_of};

    ghost reads = { λ s. reads_in_lanes s.numbers.now.lanes s.lists.now };

    ghost is_place = { λ s node place. place.whole ≤ length (runs_of s.lists.now node) };

    ghost left = { λ s node place. left_of s.numbers.now.lanes (runs_of s.lists.now node) place };

    fn len(&self) -> usize {
        self.lists.len()
    }

    fn first(&self, node: u32) -> Option<u32> {
        first_in(self.numbers, self.lists[node as usize].as_slice())
    }

    fn whole(&self, node: u32) -> LanePlace {
        LanePlace {
            whole: self.lists[node as usize].len(),
            run: NO_RUN,
        }
    }

    fn last_open(
        &self,
        node: u32,
        place: LanePlace,
        numbers: &[Option<u32>],
    ) -> Option<Open<LanePlace>> {
        last_open_in(
            self.numbers,
            self.lists[node as usize].as_slice(),
            place,
            numbers,
        )
    }
}
