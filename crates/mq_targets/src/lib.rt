//! The cells that a single left side assigns: a left side, a mode and the keys of the cells that are there go in.
//! Out come the targets in the order in which they are assigned, and those of them that are created.
//! They are the targets of `mq_ir/specs/Targets`.
#![tactic(auto)]

mod assigned;
mod choosing;
mod order;
mod places;

pub use assigned::Targets;
pub use choosing::{have_width, targets};
