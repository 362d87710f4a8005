//! Laws of a change of a partition's input: what keeps its value, its level and its assignment, what a new cycle is among,
//! and what the shape of an input is like. Each law is a function that only calls laws below it: its contract is the law.
#![tactic(auto)]

mod affected;
mod levels;
mod seeds;
mod shapes;
mod unaffected;

pub use affected::{affected_go_by_looks, cycles_are_affected};
pub use levels::{slots_are_steps, the_rest_is_poisoned, without_cycle_all_is_levelled};
pub use seeds::{other_looks_are_seeds, same_looks_are_one, steps_are_alike};
pub use shapes::shapes_are_sound;
pub use unaffected::{
    assignments_stay, levels_stay, results_stay, unaffected_is_untouched, values_stay,
};
