//! Rounds of nodes that wait for one another: for each node the numbers of the nodes that it reads go in.
//! Out come the rounds, each ascending, and the nodes that come in none, as `specs/Levels` defines them.
#![tactic(auto)]

mod dealing;
mod laws;
mod leveling;
mod lists;
mod marking;
mod reads;
mod rounds;
mod runs;
mod waiters;
mod waiting;

pub use dealing::Leveled;
pub use laws::{
    as_many_rounds_as_nodes_are_enough, nodes_of_a_circle_are_never_levelled,
    nodes_that_read_themselves_are_never_levelled, what_is_levelled_stays_levelled,
};
pub use leveling::{are_nodes, levels, levels_over};
pub use reads::{Lists, Open, Reads};
pub use runs::{Run, RunPlace, Runs};
