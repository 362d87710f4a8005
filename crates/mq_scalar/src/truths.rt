//! What is asked of a truth of three values.
ghost use Rattle.std.specs.Prelude.{◌≡◌};
ghost use Rattle.mq_values.specs.Truth as spec;

use mq_values::truth_not;

/// Whether it is true; unknown is not.
pub fn is_true(truth: Option<bool>) -> bool
    ensures { result ≡ spec.is_true truth }
{
    match truth {
        Some(holds) => holds,
        None => false,
    }
}

/// Whether it is false; unknown is not.
pub fn is_false(truth: Option<bool>) -> bool
    ensures { result ≡ spec.is_true (spec.opposite truth) }
{
    is_true(truth_not(truth))
}

/// The truth of a test in which NOT may stand.
pub fn negated_if(not: bool, truth: Option<bool>) -> Option<bool>
    ensures { result ≡ spec.negated_if not truth }
{
    if not { truth_not(truth) } else { truth }
}
