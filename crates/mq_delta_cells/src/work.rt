//! A model at work on a change.
use crate::course::Course;
use crate::seeds::Seeds;
use mq_ir::{Model, PartShape};

/// A model at work on a shape, by its course, and where a change begins.
#[derive(Clone, Copy)]
pub struct Work<'a> {
    pub model: &'a Model<'a>,
    pub shape: &'a PartShape,
    pub course: &'a Course,
    pub seeds: &'a Seeds<'a>,
}
