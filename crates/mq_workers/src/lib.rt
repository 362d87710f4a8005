//! Pieces of work run by several threads: a list of pieces and a number of workers go in, and the same list comes out,
//! each piece run once. The workers share the pieces by the claim board of `mq_claims`: each claims, takes, runs and puts.
//! What they leave in their lists is in `specs/Runs`.
#![tactic(auto)]

mod pieces;
mod seats;
#[cfg(test)]
mod tests;
mod worker;
mod workers;

pub use pieces::Piece;
pub use workers::run_pieces;
