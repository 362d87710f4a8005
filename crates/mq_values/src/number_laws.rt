//! Laws of the definitions that the calls on numbers meet. Each holds of all numbers, and its function does nothing.
ghost use Rattle.mq_values.specs.NumberLaws.{CastsBackNearby, FloorsBelow, OrdersByWorth, PrintsApart, RoundsToNearest, SubtractsByNegation};

/// Rounding gives the nearest whole number, of two the one away from zero.
pub fn rounds_to_nearest()
    ensures { RoundsToNearest }
{}

/// A cast to a smaller scale and back is off by at most half a unit of that scale.
pub fn casts_back_nearby()
    ensures { CastsBackNearby }
{}

/// `a - b` is `a + (-b)` where neither faults.
pub fn subtracts_by_negation()
    ensures { SubtractsByNegation }
{}

/// FLOOR is the greatest whole number that is not above the number.
pub fn floors_below()
    ensures { FloorsBelow }
{}

/// Different numbers of one scale print differently.
pub fn prints_apart()
    ensures { PrintsApart }
{}

/// The total order agrees with the comparison by worth.
pub fn orders_by_worth()
    ensures { OrdersByWorth }
{}
