//! Aggregates of values that are lent at the places of keys.
ghost use Rattle.std.specs.Prelude.{◌≡◌, ◌≤◌, ◌<◌, ℕ, List, ◌++◌, ◌∷◌, Ok, map, unwrap_or, IfOk};
ghost use Rattle.std.specs.List.{All};
ghost use Rattle.std.specs.Option.{option_copied};
ghost use Rattle.mq_values.specs.Aggregate.{aggregate};
ghost use Rattle.mq_values.specs.Answers.{Gives};
ghost use Rattle.mq_values.specs.declared.value.Value.{Value as OneValue};
ghost use Rattle.mq_values.specs.declared.value.Value.TheVariants.{Null};
ghost use Rattle.mq_dim_index.specs.PlaceRuns.{numbers_in, numbers_of};
ghost use Rattle.mq_reads.specs.Aggregation.{comes_to, sum_at};

use mq_dim_index::PlaceRun;
use mq_reads::{Aggregation, add_summand};
use mq_values::{Agg, Fail, Memory, Num, Tally, Value, ValueFault};

/// What lends the values of a measure at the places of some keys.
pub trait Lender {
    /// How many places there are.
    ghost count: { Self → ℕ };

    /// The value at each place.
    ghost value: { Self → ℕ → OneValue };

    /// The value at a place, or `None` where it is null.
    fn lend(&self, place: u32) -> Option<&Value>
        requires { place < count self.now }
        ensures { unwrap_or (option_copied result) Null ≡ value self.now place };
}

/// An aggregate of the values at the places of runs.
pub fn aggregate_lent<L: Lender>(
    agg: Agg,
    runs: &[PlaceRun],
    lender: &L,
) -> Result<Value, Fail<ValueFault>>
    requires { All (λ run. run.past ≤ L.count lender.now) runs.now }
    ensures { Gives result (aggregate agg (map (L.value lender.now) (numbers_of runs.now))) }
{
    let mut aggregation = Aggregation::new(agg);
    for run in runs {
        aggregation = with_run(aggregation, *run, lender)?;
    }
    match aggregation.finish() {
        Ok(v) => Ok(v),
        Err(fault) => Err(Fail::Cause(fault)),
    }
}

// The aggregate with the values at the places of a run taken.
fn with_run<L: Lender>(
    aggregation: Aggregation,
    run: PlaceRun,
    lender: &L,
) -> Result<Aggregation, Memory>
    requires { run.past ≤ L.count lender.now }
    ensures { (values : List OneValue) → IfOk result (λ a. comes_to a values
        ≡ comes_to aggregation (map (L.value lender.now) (numbers_in run) ++ values)) }
{
    if let Aggregation::Running(Tally::Sum(total)) = &aggregation {
        return Ok(summed(sum_of(*total, run, lender)));
    }
    with_each(aggregation, run, lender)
}

// A sum with the values at the places of a run taken: its total stays in hand, and no aggregate is moved on the way.
fn sum_of<L: Lender>(
    total: Option<Num>,
    run: PlaceRun,
    lender: &L,
) -> Result<Option<Num>, ValueFault>
    requires { run.past ≤ L.count lender.now }
    ensures { (values : List OneValue) → comes_to (sum_at result) values
        ≡ comes_to (sum_at (Ok total)) (map (L.value lender.now) (numbers_in run) ++ values) }
{
    let mut total = total;
    for place in run.first..run.past {
        add_summand(&mut total, lender.lend(place))?;
    }
    Ok(total)
}

// The sum on its way as an aggregate.
fn summed(total: Result<Option<Num>, ValueFault>) -> Aggregation
    ensures { result ≡ sum_at total }
{
    match total {
        Ok(total) => Aggregation::Running(Tally::Sum(total)),
        Err(fault) => Aggregation::Faulted(fault),
    }
}

// Any aggregate with the values at the places of a run taken.
fn with_each<L: Lender>(
    aggregation: Aggregation,
    run: PlaceRun,
    lender: &L,
) -> Result<Aggregation, Memory>
    requires { run.past ≤ L.count lender.now }
    ensures { (values : List OneValue) → IfOk result (λ a. comes_to a values
        ≡ comes_to aggregation (map (L.value lender.now) (numbers_in run) ++ values)) }
{
    let mut aggregation = aggregation;
    for place in run.first..run.past {
        aggregation = with_lent(aggregation, lender.lend(place))?;
    }
    Ok(aggregation)
}

// The aggregate with a value taken that is lent, or null.
fn with_lent(aggregation: Aggregation, lent: Option<&Value>) -> Result<Aggregation, Memory>
    ensures { (values : List OneValue) → IfOk result (λ a. comes_to a values
        ≡ comes_to aggregation (unwrap_or (option_copied lent.entry) Null ∷ values)) }
{
    match lent {
        Some(v) => aggregation.with(v),
        None => aggregation.with(&Value::Null),
    }
}
