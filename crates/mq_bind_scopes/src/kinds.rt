//! The kinds of expressions: how they go together, and what operators and functions make of them.

ghost use Rattle.std.specs.Prelude.{◌≡◌};
ghost use Rattle.mq_values.specs.Answers.{Gives};
ghost use Rattle.mq_ir.specs.FitsExpression as fits;
ghost use Rattle.mq_bind_scopes.specs.Kinds as spec;
ghost use Rattle.mq_bind_scopes.specs.OperatorKinds as made;

use crate::refusals::{limit, mismatch};
use mq_ir::LIMIT_OF_SCALE;
use mq_values::{Agg, Fail, Kind, MAX_SCALE, MIN_QUOTIENT_SCALE, ProdOp, Refused, SumOp, Value};

/// The kind of an expression where it is bound (docs/LANGUAGE.md, "Kinds").
#[derive(Clone, Copy)]
pub enum ExprKind {
    /// A number with this many digits behind its point; an INT has none.
    Number(u8),
    Text,
    Date,
    /// The literal NULL, which goes with numbers, with texts and with dates.
    Null,
    /// A condition, which is no value.
    Condition,
}

/// The kind of a literal.
pub fn value_kind(v: &Value) -> ExprKind
    ensures { result ≡ spec.value_kind v.now }
{
    match v {
        Value::Num(n) => ExprKind::Number(n.scale()),
        Value::Text(_) => ExprKind::Text,
        Value::Date(_) => ExprKind::Date,
        Value::Null => ExprKind::Null,
    }
}

/// The kind of a column.
pub fn of_column(kind: Kind) -> ExprKind
    ensures { result ≡ spec.of_column kind }
{
    match kind {
        Kind::Int => ExprKind::Number(0),
        Kind::Decimal(scale) => ExprKind::Number(scale),
        Kind::Text => ExprKind::Text,
        Kind::Date => ExprKind::Date,
    }
}

/// The kind of a column that holds such values; NULL and a condition have none.
pub fn column_kind(kind: ExprKind) -> Option<Kind>
    ensures { result ≡ spec.column_kind kind }
{
    match kind {
        ExprKind::Number(scale) => Some(if scale == 0 {
            Kind::Int
        } else {
            Kind::Decimal(scale)
        }),
        ExprKind::Text => Some(Kind::Text),
        ExprKind::Date => Some(Kind::Date),
        ExprKind::Null => None,
        ExprKind::Condition => None,
    }
}

/// Whether it is that of a condition.
pub fn is_condition_kind(kind: ExprKind) -> bool
    ensures { result ≡ spec.is_condition_kind kind }
{
    matches!(kind, ExprKind::Condition)
}

fn is_null_kind(kind: ExprKind) -> bool
    ensures { result ≡ spec.is_null_kind kind }
{
    matches!(kind, ExprKind::Null)
}

/// The scale of a number.
pub fn number_scale(kind: ExprKind) -> Result<u8, Fail<Refused>>
    ensures { Gives result (spec.number_scale kind) }
{
    match kind {
        ExprKind::Number(scale) => Ok(scale),
        _ => Err(mismatch()),
    }
}

// The scale of a number; that of NULL is that of an INT.
fn operand_scale(kind: ExprKind) -> Result<u8, Fail<Refused>>
    ensures { Gives result (spec.operand_scale kind) }
{
    match kind {
        ExprKind::Null => Ok(0),
        _ => number_scale(kind),
    }
}

/// Whether it is that of a number of days, which is whole; NULL stands for one too.
pub fn is_day_count(kind: ExprKind) -> bool
    ensures { result ≡ spec.is_day_count kind }
{
    match kind {
        ExprKind::Number(scale) => scale == 0,
        ExprKind::Null => true,
        _ => false,
    }
}

/// The kind that both go into: numbers with numbers, texts with texts, dates with dates, and NULL with each. `KindMismatch` where
/// there is none (docs/LANGUAGE.md, "Kinds").
pub fn wider(a: ExprKind, b: ExprKind) -> Result<ExprKind, Fail<Refused>>
    ensures { Gives result (spec.wider a b) }
{
    match (a, b) {
        (ExprKind::Number(s), ExprKind::Number(t)) => Ok(ExprKind::Number(s.max(t))),
        (ExprKind::Number(s), ExprKind::Null) => Ok(ExprKind::Number(s)),
        (ExprKind::Text, ExprKind::Text) => Ok(ExprKind::Text),
        (ExprKind::Text, ExprKind::Null) => Ok(ExprKind::Text),
        (ExprKind::Date, ExprKind::Date) => Ok(ExprKind::Date),
        (ExprKind::Date, ExprKind::Null) => Ok(ExprKind::Date),
        (ExprKind::Null, ExprKind::Number(t)) => Ok(ExprKind::Number(t)),
        (ExprKind::Null, ExprKind::Text) => Ok(ExprKind::Text),
        (ExprKind::Null, ExprKind::Date) => Ok(ExprKind::Date),
        (ExprKind::Null, ExprKind::Null) => Ok(ExprKind::Null),
        _ => Err(mismatch()),
    }
}

// Numbers, or NULL: the larger scale.
fn numbers_kind(a: ExprKind, b: ExprKind) -> Result<ExprKind, Fail<Refused>>
    ensures { Gives result (made.numbers_kind a b) }
{
    let s = operand_scale(a)?;
    let t = operand_scale(b)?;
    Ok(ExprKind::Number(s.max(t)))
}

// A date that is moved by a number of days.
fn shifted_kind(days: ExprKind) -> Result<ExprKind, Fail<Refused>>
    ensures { Gives result (made.shifted_kind days) }
{
    if !is_day_count(days) {
        return Err(mismatch());
    }
    Ok(ExprKind::Date)
}

fn added_kind(a: ExprKind, b: ExprKind) -> Result<ExprKind, Fail<Refused>>
    ensures { Gives result (made.added_kind a b) }
{
    match (a, b) {
        (ExprKind::Date, days) => shifted_kind(days),
        (days, ExprKind::Date) => shifted_kind(days),
        _ => numbers_kind(a, b),
    }
}

fn subtracted_kind(a: ExprKind, b: ExprKind) -> Result<ExprKind, Fail<Refused>>
    ensures { Gives result (made.subtracted_kind a b) }
{
    match (a, b) {
        (ExprKind::Date, ExprKind::Date) => Ok(ExprKind::Number(0)),
        (ExprKind::Date, days) => shifted_kind(days),
        _ => numbers_kind(a, b),
    }
}

/// `+` and `-` take numbers, and a date with a number of days; `-` takes a date less a date too, and `||` every value. NULL goes
/// with each. `KindMismatch` for other operands (docs/LANGUAGE.md, "Kinds").
pub fn sum_kind(op: SumOp, a: ExprKind, b: ExprKind) -> Result<ExprKind, Fail<Refused>>
    ensures { Gives result (made.sum_kind op a b) }
{
    match op {
        SumOp::Add => added_kind(a, b),
        SumOp::Sub => subtracted_kind(a, b),
        SumOp::Join => joined_kind(a, b),
    }
}

fn joined_kind(a: ExprKind, b: ExprKind) -> Result<ExprKind, Fail<Refused>>
    ensures { Gives result (made.joined_kind a b) }
{
    if is_condition_kind(a) {
        return Err(mismatch());
    }
    if is_condition_kind(b) {
        return Err(mismatch());
    }
    Ok(ExprKind::Text)
}

fn product_scale(op: ProdOp, s: u8, t: u8) -> u8
    ensures { result ≡ made.product_scale op s t }
{
    match op {
        ProdOp::Mul => s.saturating_add(t).min(MAX_SCALE),
        ProdOp::Div => s.max(t).max(MIN_QUOTIENT_SCALE),
    }
}

/// `*` and `/` take numbers and NULL.
pub fn product_kind(op: ProdOp, a: ExprKind, b: ExprKind) -> Result<ExprKind, Fail<Refused>>
    ensures { Gives result (made.product_kind op a b) }
{
    let s = operand_scale(a)?;
    let t = operand_scale(b)?;
    Ok(ExprKind::Number(product_scale(op, s, t)))
}

/// The kind of ROUND to this scale.
pub fn rounded_kind(scale: u8, kind: ExprKind) -> Result<ExprKind, Fail<Refused>>
    ensures { Gives result (made.rounded_kind scale kind) }
{
    number_scale(kind)?;
    if scale > MAX_SCALE {
        return Err(limit(LIMIT_OF_SCALE));
    }
    Ok(ExprKind::Number(scale))
}

// CAST takes every value to TEXT, and to another kind what a column of that kind takes.
fn is_castable(kind: ExprKind, to: Kind) -> bool
    ensures { result ≡ made.is_castable kind to }
{
    match to {
        Kind::Text => !is_condition_kind(kind),
        _ => is_assignable(of_column(to), kind),
    }
}

/// Whether the scale of a kind is one that DECIMAL may have.
pub fn kind_fits(kind: Kind) -> bool
    ensures { result ≡ fits.kind_fits kind }
{
    match kind {
        Kind::Decimal(scale) => 0 < scale && scale <= MAX_SCALE,
        Kind::Int | Kind::Text | Kind::Date => true,
    }
}

/// The kind that CAST gives. `KindMismatch` where it does not take this one: it takes every value to TEXT, and to another kind what a
/// column of that kind takes. Then the limit of scales, where the scale is none that DECIMAL may have (docs/LANGUAGE.md, "Kinds").
pub fn cast_kind(to: Kind, kind: ExprKind) -> Result<ExprKind, Fail<Refused>>
    ensures { Gives result (made.cast_kind to kind) }
{
    if !is_castable(kind, to) {
        return Err(mismatch());
    }
    if !kind_fits(to) {
        return Err(limit(LIMIT_OF_SCALE));
    }
    Ok(of_column(to))
}

/// The kind of an aggregate of such values. `KindMismatch` where it does not take them: SUM and AVG take numbers, MIN and MAX every
/// value but the literal NULL, COUNT every value (docs/LANGUAGE.md, "Kinds").
pub fn aggregate_kind(agg: Agg, kind: ExprKind) -> Result<ExprKind, Fail<Refused>>
    ensures { Gives result (made.aggregate_kind agg kind) }
{
    match agg {
        Agg::Sum => Ok(ExprKind::Number(number_scale(kind)?)),
        Agg::Avg => Ok(ExprKind::Number(number_scale(kind)?.max(MIN_QUOTIENT_SCALE))),
        Agg::Count => counted_kind(kind),
        Agg::Min | Agg::Max => extreme_kind(kind),
    }
}

fn counted_kind(kind: ExprKind) -> Result<ExprKind, Fail<Refused>>
    ensures { Gives result (made.aggregate_kind Agg.Count kind) }
{
    if is_condition_kind(kind) {
        return Err(mismatch());
    }
    Ok(ExprKind::Number(0))
}

fn extreme_kind(kind: ExprKind) -> Result<ExprKind, Fail<Refused>>
    ensures { Gives result (made.aggregate_kind Agg.Min kind) }
{
    if is_null_kind(kind) {
        return Err(mismatch());
    }
    if is_condition_kind(kind) {
        return Err(mismatch());
    }
    Ok(kind)
}

/// Whether a column or measure of the first kind takes values of the second: numbers take numbers, texts texts and dates dates, and
/// each takes NULL (docs/LANGUAGE.md, "Kinds").
pub fn is_assignable(to: ExprKind, kind: ExprKind) -> bool
    ensures { result ≡ spec.is_assignable to kind }
{
    match (to, kind) {
        (ExprKind::Number(_), ExprKind::Number(_)) => true,
        (ExprKind::Text, ExprKind::Text) => true,
        (ExprKind::Date, ExprKind::Date) => true,
        (ExprKind::Number(_), ExprKind::Null) => true,
        (ExprKind::Text, ExprKind::Null) => true,
        (ExprKind::Date, ExprKind::Null) => true,
        _ => false,
    }
}

/// Whether a value of the second kind names one of a dimension of the first without losing a digit.
pub fn is_index(to: ExprKind, kind: ExprKind) -> bool
    ensures { result ≡ spec.is_index to kind }
{
    match (to, kind) {
        (ExprKind::Number(s), ExprKind::Number(t)) => t <= s,
        _ => is_assignable(to, kind),
    }
}
