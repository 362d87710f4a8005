//! Laws of derivations: of what a measure of a cell comes from, and of the steps that tell it.
//! Each law is a function that only calls laws below it: its contract is the law.
#![tactic(auto)]

mod derivations;
mod sources;

pub use derivations::{
    accepted_steps_have_their_slots, derivations_are_accepted, derivations_have_the_sources,
};
pub use sources::sources_are_least;
