//! A FOR .. FROM .. TO with its start, stop and step evaluated.
ghost use Rattle.std.specs.Prelude.{◌≡◌, ◌+◌, min, length, IfOk, IfSome};
ghost use Rattle.mq_values.specs.declared.limits.TheConstants.{MAX_SINGLE_LEFT_SIDES};
ghost use Rattle.mq_ir.specs.Unfolding.{steps_of};
ghost use Rattle.mq_unfold.specs.Steps as spec;

use crate::courses::{Course, Line};
use mq_ir::SinglePlace;
use mq_values::{Day, Items, Memory, Num, Value};
use std::alloc::Global;

/// A FOR with steps, its start, stop and step evaluated.
#[derive(Drop)]
pub struct Steps {
    pub start: Value,
    pub stop: Value,
    pub step: Value,
    pub down: bool,
}

impl Steps {
    /// How many values it gives, or one more than there may be single left sides where they are more than these.
    pub fn count(&self) -> usize
        ensures { result ≡ min (length (steps_of self.now.down self.now.start self.now.stop self.now.step)) (MAX_SINGLE_LEFT_SIDES + 1) }
    {
        match self.course() {
            Some(course) => course.count(self.down),
            None => 0,
        }
    }

    /// Its values as places, in order.
    pub fn places(&self, alloc: Global) -> Result<Items<SinglePlace>, Memory>
        ensures { IfOk result (λ places. places ≡ steps_of self.now.down self.now.start self.now.stop self.now.step) }
    {
        match self.course() {
            Some(course) => course.places(alloc, self.down),
            None => Ok(Items::new(alloc)),
        }
    }

    // The whole numbers that it goes over: mantissas between numbers, ordinals between dates. Nothing else is
    // stepped over.
    fn course(&self) -> Option<Course>
        ensures course { result ≡ spec.course_of self.now.start self.now.stop self.now.step }
        ensures ends { IfSome result spec.HasEnds }
    {
        match (&self.start, &self.stop, &self.step) {
            (Value::Num(start), Value::Num(stop), Value::Num(step)) => Some(Course {
                start: *start,
                stop: *stop,
                step: *step,
                line: Line::Numbers,
            }),
            (Value::Date(start), Value::Date(stop), Value::Num(step)) => {
                over_days(*start, *stop, *step)
            }
            _ => None,
        }
    }
}

// The ordinals from `start` to `stop` in steps of so many days, where these are whole.
fn over_days(start: Day, stop: Day, step: Num) -> Option<Course>
    ensures course { result ≡ spec.over_days start stop step }
    ensures ends { IfSome result spec.HasEnds }
{
    if step.scale() != 0 {
        return None;
    }
    Some(Course {
        start: ordinal_of(start),
        stop: ordinal_of(stop),
        step,
        line: Line::Days,
    })
}

// The ordinal of a date as a number.
fn ordinal_of(day: Day) -> Num
    ensures number { result ≡ spec.ordinal_number day }
    ensures range { spec.IsOn Line.Days result.mant }
{
    Num::new(day.ordinal() as i128, 0)
}
