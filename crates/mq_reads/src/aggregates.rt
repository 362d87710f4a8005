//! Aggregates of values, at once and one by one.
ghost use Rattle.std.specs.Prelude.{◌≡◌, List, [], ◌∷◌, Ok, unwrap_or, IfOk};
ghost use Rattle.std.specs.Option.{option_copied};
ghost use Rattle.mq_values.specs.Aggregate.{aggregate as spec_aggregate};
ghost use Rattle.mq_values.specs.Answers.{Gives, result_map};
ghost use Rattle.mq_values.specs.Arithmetic.{sum_of};
ghost use Rattle.mq_values.specs.declared.value.Value.{Value};
ghost use Rattle.mq_values.specs.declared.value.Value.TheVariants.{Null};
ghost use Rattle.mq_reads.specs.Aggregation.{comes_to, sum_after, sum_at};

use mq_values::{Agg, Fail, Memory, Num, Tally, Value, ValueFault, add};

/// An aggregate on its way over some values, which it takes one by one in their order. A fault is kept until all
/// values are taken, so that one that comes on the way to a later value can be told before it.
#[derive(Drop)]
pub enum Aggregation {
    Running(Tally),
    Faulted(ValueFault),
}

impl Aggregation {
    /// The aggregate before its first value.
    pub fn new(agg: Agg) -> Aggregation
        ensures { (values : List Value) → comes_to result values ≡ spec_aggregate agg values }
    {
        Aggregation::Running(Tally::new(agg))
    }

    /// The aggregate with `value` taken.
    pub fn with(self, value: &Value) -> Result<Aggregation, Memory>
        ensures { IfOk result (λ a. (values : List Value) → comes_to a values ≡ comes_to self (value.now ∷ values)) }
    {
        let tally = match self {
            Aggregation::Running(tally) => tally,
            Aggregation::Faulted(fault) => return Ok(Aggregation::Faulted(fault)),
        };
        match tally.with(value) {
            Ok(tally) => Ok(Aggregation::Running(tally)),
            Err(Fail::Cause(fault)) => Ok(Aggregation::Faulted(fault)),
            Err(Fail::Memory) => Err(Memory),
        }
    }

    /// What the aggregate comes to when all values are taken.
    pub fn finish(self) -> Result<Value, ValueFault>
        ensures { result ≡ comes_to self [] }
    {
        match self {
            Aggregation::Running(tally) => tally.finish(),
            Aggregation::Faulted(fault) => Err(fault),
        }
    }
}

/// Takes a value that is lent, or null, into a sum; `total` is that of the numbers before it, and `None` where there are none. It
/// stays in its place, where an `Aggregation` would be moved at each value. `Overflow` comes where the sum leaves the range here.
pub fn add_summand(total: &mut Option<Num>, lent: Option<&Value>) -> Result<(), ValueFault>
    ensures { (values : List Value) → comes_to (sum_at (sum_after total.new result)) values
        ≡ comes_to (sum_at (Ok total.old)) (unwrap_or (option_copied lent.entry) Null ∷ values) }
{
    let Some(Value::Num(n)) = lent else {
        return Ok(());
    };
    match total {
        Some(sum) => add_to(sum, n),
        None => {
            *total = Some(*n);
            Ok(())
        }
    }
}

// Adds a number to a sum. Those of one scale, as the values of a measure are, are added as they stand.
fn add_to(sum: &mut Num, n: &Num) -> Result<(), ValueFault>
    ensures { sum_of sum.old n.now ≡ result_map (λ _. sum.new) result }
{
    if sum.scale() != n.scale() {
        return add_apart(sum, n);
    }
    match sum.mant().checked_add(n.mant()) {
        Some(mant) => {
            *sum = Num::new(mant, n.scale());
            Ok(())
        }
        None => Err(ValueFault::Overflow),
    }
}

// Adds a number to a sum of another scale.
fn add_apart(sum: &mut Num, n: &Num) -> Result<(), ValueFault>
    ensures { sum_of sum.old n.now ≡ result_map (λ _. sum.new) result }
{
    *sum = add(*sum, *n)?;
    Ok(())
}

/// The aggregate of the values in their order, or its fault (docs/LANGUAGE.md, "Aggregates").
pub fn aggregate(agg: Agg, values: &[Value]) -> Result<Value, Fail<ValueFault>>
    ensures { Gives result (spec_aggregate agg values.now) }
{
    let mut tally = Tally::new(agg);
    for value in values {
        tally = tally.with(value)?;
    }
    match tally.finish() {
        Ok(value) => Ok(value),
        Err(fault) => Err(Fail::Cause(fault)),
    }
}
