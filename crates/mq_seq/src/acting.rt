//! A rule at work.
ghost use Rattle.mq_refs.specs.Orders.{IsOrderOf, IsOrderOf-prop};

use mq_ir::{Model, Rule};
use mq_refs::RefsOrder;

/// A rule of a model at work, with its number, in a turn, and what is known of the order of the references' cells.
/// Definitions see it by `act_in` (specs/Steps).
#[derive(Clone, Copy)]
pub struct Acting<'a> {
    pub model: &'a Model<'a>,
    pub number: u32,
    pub rule: &'a Rule,
    pub turn: u32,
    pub refs: RefsOrder,
    ghost refs_known: { IsOrderOf refs model.now } by { IsOrderOf-prop refs model.now },
}
