ghost use Rattle.std.specs.Prelude.{◌≡◌, List, [], ◌+◌, ℕ, pos, Some};
ghost use Rattle.mq_values.specs.Aggregate.{aggregate};
ghost use Rattle.mq_values.specs.Answers.{Gives, result_map};
ghost use Rattle.mq_values.specs.Arithmetic.{in_range, sum_of};
ghost use Rattle.mq_values.specs.Tally.{Takes, outcome};
ghost use Rattle.mq_values.specs.declared.tally.Tally.TheVariants as tally_of;
ghost use Rattle.mq_values.specs.declared.value.Value.{Value};
ghost use Rattle.mq_values.specs.declared.value.Value.TheVariants as value_of;

use crate::arithmetic::{add, div};
use crate::faults::ValueFault;
use crate::memory::Fail;
use crate::number::Num;
use crate::operators::Agg;
use crate::value::Value;

/// An aggregate on its way over some values, which it takes one by one in their order. Nulls are skipped
/// (docs/LANGUAGE.md, "Aggregates"). An aggregate over a group evaluates all its arguments first, so a tally may be
/// fed only with values that are there already: else it would tell the `Overflow` of a partial sum before a value
/// fault of a later member.
#[derive(Debug, Drop)]
pub enum Tally {
    Sum(Option<Num>),
    Avg(Option<(Num, u128)>),
    Min(Option<Value>),
    Max(Option<Value>),
    Count(u128),
}

impl Tally {
    /// The aggregate before its first value.
    pub fn new(agg: Agg) -> Tally
        ensures { (values : List Value) → outcome result values ≡ aggregate agg values }
    {
        match agg {
            Agg::Sum => Tally::Sum(None),
            Agg::Avg => Tally::Avg(None),
            Agg::Min => Tally::Min(None),
            Agg::Max => Tally::Max(None),
            Agg::Count => Tally::Count(0),
        }
    }

    /// The aggregate with `value` taken. `Overflow` comes where a sum leaves the range here, whatever the
    /// values that are still to come.
    pub fn with(self, value: &Value) -> Result<Tally, Fail<ValueFault>>
        ensures { Takes self value.now result }
    {
        match self {
            Tally::Sum(total) => with_summand(total, value),
            Tally::Avg(total) => with_part(total, value),
            Tally::Min(least) => with_lower(least, value),
            Tally::Max(greatest) => with_higher(greatest, value),
            Tally::Count(count) => with_one(count, value),
        }
    }

    /// What the aggregate comes to when all values are taken.
    pub fn finish(self) -> Result<Value, ValueFault>
        ensures { result ≡ outcome self [] }
    {
        match self {
            Tally::Sum(None) | Tally::Avg(None) | Tally::Min(None) | Tally::Max(None) => Ok(
                Value::Null,
            ),
            Tally::Sum(Some(total)) => Ok(Value::Num(total)),
            Tally::Avg(Some((total, count))) => Ok(Value::Num(div(total, whole(count)?)?)),
            Tally::Min(Some(value)) | Tally::Max(Some(value)) => Ok(value),
            Tally::Count(count) => Ok(Value::Num(whole(count)?)),
        }
    }
}

/// A count as an INT.
fn whole(count: u128) -> Result<Num, ValueFault>
    ensures { result ≡ in_range (pos count) 0 }
{
    match i128::try_from(count) {
        Ok(mant) => Ok(Num::new(mant, 0)),
        Err(_) => Err(ValueFault::Overflow),
    }
}

fn with_summand(total: Option<Num>, value: &Value) -> Result<Tally, Fail<ValueFault>>
    ensures { Takes (tally_of.Sum total) value.now result }
{
    let Value::Num(n) = value else {
        return Ok(Tally::Sum(total));
    };
    let Some(total) = total else {
        return Ok(Tally::Sum(Some(*n)));
    };
    match add(total, *n) {
        Ok(total) => Ok(Tally::Sum(Some(total))),
        Err(fault) => Err(Fail::Cause(fault)),
    }
}

fn with_part(total: Option<(Num, u128)>, value: &Value) -> Result<Tally, Fail<ValueFault>>
    ensures { Takes (tally_of.Avg total) value.now result }
{
    let Value::Num(n) = value else {
        return Ok(Tally::Avg(total));
    };
    match total {
        Some((total, count)) => with_counted(total, count, *n),
        None => Ok(Tally::Avg(Some((*n, 1)))),
    }
}

fn with_counted(total: Num, count: u128, n: Num) -> Result<Tally, Fail<ValueFault>>
    ensures { Takes (tally_of.Avg (Some (total, count))) (value_of.Num n) result }
{
    match add(total, n) {
        Ok(total) => match count.checked_add(1) {
            Some(count) => Ok(Tally::Avg(Some((total, count)))),
            None => Err(Fail::Cause(ValueFault::Overflow)),
        },
        Err(fault) => Err(Fail::Cause(fault)),
    }
}

fn with_one(count: u128, value: &Value) -> Result<Tally, Fail<ValueFault>>
    ensures { Takes (tally_of.Count count) value.now result }
{
    if let Value::Null = value {
        return Ok(Tally::Count(count));
    }
    match count.checked_add(1) {
        Some(count) => Ok(Tally::Count(count)),
        None => Err(Fail::Cause(ValueFault::Overflow)),
    }
}

fn with_lower(least: Option<Value>, value: &Value) -> Result<Tally, Fail<ValueFault>>
    ensures { Takes (tally_of.Min least) value.now result }
{
    match least {
        _ if value.is_null() => Ok(Tally::Min(least)),
        Some(least) if !value.cmp(&least).is_lt() => Ok(Tally::Min(Some(least))),
        _ => Ok(Tally::Min(Some(value.copy()?))),
    }
}

fn with_higher(greatest: Option<Value>, value: &Value) -> Result<Tally, Fail<ValueFault>>
    ensures { Takes (tally_of.Max greatest) value.now result }
{
    match greatest {
        _ if value.is_null() => Ok(Tally::Max(greatest)),
        Some(greatest) if !value.cmp(&greatest).is_gt() => Ok(Tally::Max(Some(greatest))),
        _ => Ok(Tally::Max(Some(value.copy()?))),
    }
}
