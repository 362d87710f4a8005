//! The whole numbers over which FOR .. FROM .. TO steps, counted before they are made.
ghost use Rattle.std.specs.Prelude.{◌≡◌, ◌+◌, min, length, Some, IfOk, IsTrue};
ghost use Rattle.mq_values.specs.Number.{is_mantissa};
ghost use Rattle.mq_values.specs.declared.limits.TheConstants.{MAX_SINGLE_LEFT_SIDES};
ghost use Rattle.mq_unfold.specs.Steps as spec;

use mq_ir::SinglePlace;
use mq_values::{Day, Items, MAX_SINGLE_LEFT_SIDES, Memory, Num, Value};
use std::alloc::Global;

/// What the whole numbers of a course stand for.
#[derive(Clone, Copy)]
pub enum Line {
    /// Numbers of the scale of the start, by their mantissas.
    Numbers,
    /// Dates, by their ordinals.
    Days,
}

/// The whole numbers from `start` to `stop` in steps of `step`: the mantissas of these three.
#[derive(Drop)]
pub struct Course {
    pub start: Num,
    pub stop: Num,
    pub step: Num,
    pub line: Line,
}

impl Course {
    /// How many there are, or one more than there may be single left sides where they are more than these.
    pub fn count(&self, down: bool) -> usize
        ensures { result ≡ min (length (spec.course_places down self.now)) (MAX_SINGLE_LEFT_SIDES + 1) }
    {
        match self.last(down) {
            Some(last) => last.min(MAX_SINGLE_LEFT_SIDES as u128) as usize + 1,
            None => 0,
        }
    }

    /// What they stand for, as places, in order.
    pub fn places(&self, alloc: Global, down: bool) -> Result<Items<SinglePlace>, Memory>
        requires { spec.HasEnds self.now }
        ensures { IfOk result (λ places. places ≡ spec.course_places down self.now) }
    {
        match self.last(down) {
            Some(last) => walked(alloc, self, down, last),
            None => Ok(Items::new(alloc)),
        }
    }

    // The number of the last one, counted from 0, where there is one.
    fn last(&self, down: bool) -> Option<u128>
        ensures { result ≡ spec.last_of down self.now }
    {
        if down {
            last_step(self.stop, self.start, self.step)
        } else {
            last_step(self.start, self.stop, self.step)
        }
    }
}

// The number of the last step from `low` on that is not above `high`.
fn last_step(low: Num, high: Num, step: Num) -> Option<u128>
    ensures { result ≡ spec.last_step low.mant high.mant step.mant }
{
    let (low, high, step) = (low.mant(), high.mant(), step.mant());
    if step <= 0 || high < low {
        return None;
    }
    Some(high.abs_diff(low) / step.unsigned_abs())
}

// The first value and those `last` steps further.
fn walked(
    alloc: Global,
    course: &Course,
    down: bool,
    last: u128,
) -> Result<Items<SinglePlace>, Memory>
    requires ends { spec.HasEnds course.now }
    requires last { spec.last_of down course.now ≡ Some last }
    ensures { IfOk result (λ places. places ≡ spec.stepped down course.now last) }
{
    // What is between the two is in range as they are.
    let (_first, _bound) = (course.start.mant(), course.stop.mant());
    let mut places = Items::new(alloc);
    let mut n = course.start;
    places.push(SinglePlace::At(value_on(course.line, n)))?;
    for _taken in 0..last {
        n = next(n, course.step, down);
        places.push(SinglePlace::At(value_on(course.line, n)))?;
    }
    Ok(places)
}

// The number one step further.
fn next(n: Num, step: Num, down: bool) -> Num
    requires { IsTrue (is_mantissa (spec.moved down n.mant step.mant)) }
    ensures { result ≡ record { mant = spec.moved down n.mant step.mant; scale = n.scale } }
{
    if down {
        Num::new(n.mant() - step.mant(), n.scale())
    } else {
        Num::new(n.mant() + step.mant(), n.scale())
    }
}

// What a whole number stands for.
fn value_on(line: Line, n: Num) -> Value
    requires { spec.IsOn line n.mant }
    ensures { result ≡ spec.value_on line n }
{
    match line {
        Line::Numbers => Value::Num(n),
        Line::Days => Value::Date(Day::new(n.mant() as u32)),
    }
}
