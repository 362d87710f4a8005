//! What operators and functions make of values that stand there.
ghost use Rattle.std.specs.Prelude.{◌≡◌, neg_ℤ};
ghost use Rattle.mq_values.specs.Answers.{Gives};
ghost use Rattle.mq_values.specs.Arithmetic.{negation_of};
ghost use Rattle.mq_ir.specs.Operators as spec;
ghost use Rattle.mq_ir.specs.Worth.{a_number};
ghost use Rattle.mq_values.specs.Convert.{number_at};

use mq_values::{
    Day, Fail, Func, Kind, Num, ProdOp, SumOp, Value, ValueFault, add, cast, concat, days_between,
    div, length, mul, shift, shift_back, sub,
};
use std::alloc::Global;

/// A number that was worked out, as a value.
fn number(worked_out: Result<Num, ValueFault>) -> Result<Value, Fail<ValueFault>>
    ensures { Gives result (a_number worked_out) }
{
    match worked_out {
        Ok(n) => Ok(Value::Num(n)),
        Err(fault) => Err(Fail::Cause(fault)),
    }
}

/// `a` with `b` added, taken away or joined as a text; null where the operator takes no such values. A date is moved by an
/// INT, and a date less a date is a number of days (docs/LANGUAGE.md, "Dates").
pub fn added(alloc: Global, op: SumOp, a: &Value, b: &Value) -> Result<Value, Fail<ValueFault>>
    ensures { Gives result (spec.added op a.now b.now) }
{
    match (op, a, b) {
        (SumOp::Add, Value::Num(m), Value::Num(n)) => number(add(*m, *n)),
        (SumOp::Sub, Value::Num(m), Value::Num(n)) => number(sub(*m, *n)),
        (SumOp::Join, a, b) => concat(alloc, a, b),
        (SumOp::Add, Value::Date(d), Value::Num(n)) => later(*d, *n),
        (SumOp::Add, Value::Num(n), Value::Date(d)) => later(*d, *n),
        (SumOp::Sub, Value::Date(d), Value::Num(n)) => earlier(*d, *n),
        (SumOp::Sub, Value::Date(d), Value::Date(e)) => Ok(Value::Num(days_between(*d, *e))),
        _ => Ok(Value::Null),
    }
}

/// The day `n` days on; null where `n` is no INT.
fn later(d: Day, n: Num) -> Result<Value, Fail<ValueFault>>
    ensures { Gives result (spec.moved_day d n.scale n.mant) }
{
    if n.scale() != 0 {
        return Ok(Value::Null);
    }
    day(shift(d, n))
}

/// The day `n` days back; null where `n` is no INT.
fn earlier(d: Day, n: Num) -> Result<Value, Fail<ValueFault>>
    ensures { Gives result (spec.moved_day d n.scale (neg_ℤ n.mant)) }
{
    if n.scale() != 0 {
        return Ok(Value::Null);
    }
    day(shift_back(d, n))
}

/// A day that was worked out, as a value.
fn day(worked_out: Result<Day, ValueFault>) -> Result<Value, Fail<ValueFault>>
    ensures { Gives result (spec.a_day worked_out) }
{
    match worked_out {
        Ok(d) => Ok(Value::Date(d)),
        Err(fault) => Err(Fail::Cause(fault)),
    }
}

/// `a` multiplied with `b` or divided by it; null where one is no number.
pub fn multiplied(op: ProdOp, a: &Value, b: &Value) -> Result<Value, Fail<ValueFault>>
    ensures { Gives result (spec.multiplied op a.now b.now) }
{
    match (op, a, b) {
        (ProdOp::Mul, Value::Num(m), Value::Num(n)) => number(mul(*m, *n)),
        (ProdOp::Div, Value::Num(m), Value::Num(n)) => number(div(*m, *n)),
        _ => Ok(Value::Null),
    }
}

/// The sign turned; null where `v` is no number.
pub fn negated(v: &Value) -> Result<Value, Fail<ValueFault>>
    ensures { Gives result (spec.of_number negation_of v.now) }
{
    match v {
        Value::Num(n) => number(n.neg()),
        _ => Ok(Value::Null),
    }
}

/// A function of one argument.
pub fn applied(alloc: Global, func: Func, v: Value) -> Result<Value, Fail<ValueFault>>
    ensures { Gives result (spec.applied func v) }
{
    match (func, v) {
        (Func::Abs, Value::Num(n)) => number(n.abs()),
        (Func::Floor, Value::Num(n)) => Ok(Value::Num(n.floor())),
        (Func::Length, v) => Ok(length(&v)),
        (Func::Round(scale), Value::Num(n)) => rounded(alloc, n, scale),
        (Func::Nvl, v) => Ok(v),
        _ => Ok(Value::Null),
    }
}

/// A number at another scale; null where there is no such scale.
fn rounded(alloc: Global, n: Num, scale: u8) -> Result<Value, Fail<ValueFault>>
    ensures { Gives result (number_at n scale) }
{
    cast(alloc, &Value::Num(n), Kind::Decimal(scale))
}
