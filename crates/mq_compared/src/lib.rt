//! What the query of a view answers under a scenario: the tables, the changes of the scenario and what is kept of the view go in.
//! Out comes the answer, or the first change that is refused. It is that of mq_ir's `specs/Scenarios`; the tables are as before.
#![tactic(auto)]

mod beside;
mod in_place;
mod under;

pub use beside::compared_beside;
pub use under::compared_under;
