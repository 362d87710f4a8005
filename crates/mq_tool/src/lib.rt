//! The whole tool as a library: the bytes of a script go in from a source, its statements are done one after another,
//! and their lines come out at a sink, with a status.
//! `specs/Script.antt` defines what a script prints.
#![tactic(auto)]

mod blocks;
mod changes;
mod explaining;
mod generated;
mod laws;
mod loads;
mod reading;
mod scenarios;
mod scripts;
mod statuses;
mod step;
mod stops;
mod takes;

pub use generated::run_generated;
pub use laws::one_output;
pub use scripts::run_script;
pub use statuses::{
    BAD_WORDS, DONE, FLAWED, NO_MEMORY, NOT_UTF8, READ_FAILED, TOO_LONG, WRITE_FAILED,
};
pub use step::do_statement;
