//! Laws of sessions: what a block comes to in the end, and what a comparison says of a scenario.
//! Each law is a function that does nothing: its contract is the law, over the statement step of mq_tool's specs/.
#![tactic(auto)]

mod blocks;
mod comparisons;

pub use blocks::{
    blocks_come_to_their_changes, blocks_keep_what_was, broken_blocks_come_to_nothing,
    rolled_back_blocks_come_to_nothing,
};
pub use comparisons::{other_scenarios_play_no_part, scenarios_are_sessions};
