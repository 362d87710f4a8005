//! A whole run: the words of the command line go in, with a source, a shelf and a sink; out come the status of the program,
//! and at the sink the output of the script or the summary of a generated one.
//! `specs/Commands.antt` defines what words ask for, mq_tool's `specs/Script.antt` what a script prints.
#![tactic(auto)]

mod commands;
mod runs;

pub use runs::run;
