//! The kinds of the parts of FOR .. FROM (docs/LANGUAGE.md, "The order of binding").

ghost use Rattle.std.specs.Prelude.{◌≡◌};
ghost use Rattle.mq_bind_scopes.specs.ForSteps as spec;

use crate::kinds::{ExprKind, is_condition_kind, is_day_count, is_index};

fn are_values(start: ExprKind, stop: ExprKind, step: ExprKind) -> bool
    ensures { result ≡ spec.are_values start stop step }
{
    !is_condition_kind(start) && !is_condition_kind(stop) && !is_condition_kind(step)
}

fn bounds_fit(dim: ExprKind, start: ExprKind, stop: ExprKind) -> bool
    ensures { result ≡ spec.bounds_fit dim start stop }
{
    is_index(dim, start) && is_index(dim, stop)
}

/// Whether the start, stop and step of a FOR .. FROM go with its dimension: FOR .. FROM wants one of numbers, or one of dates, over
/// which the step is a number of days. Where there is no dimension, they have only to be values.
pub fn steps_fit(dim: Option<ExprKind>, start: ExprKind, stop: ExprKind, step: ExprKind) -> bool
    ensures { result ≡ spec.steps_fit dim start stop step }
{
    match dim {
        None => are_values(start, stop, step),
        Some(ExprKind::Number(s)) => {
            let dim = ExprKind::Number(s);
            bounds_fit(dim, start, stop) && is_index(dim, step)
        }
        Some(ExprKind::Date) => bounds_fit(ExprKind::Date, start, stop) && is_day_count(step),
        Some(_) => false,
    }
}
