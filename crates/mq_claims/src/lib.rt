//! A board of numbered pieces: a list of pieces and a number of seats go in, and seats claim, take and put pieces.
//! Out come the pieces as they were put, each claimed by one seat and once; no call waits for another.
//! The steps of the seats are a run of the machine of `specs/Machine`; `specs/Rule` ties the board to it.
#![tactic(auto)]

mod board;
mod calls;
mod laws;
mod limits;
mod slots;
#[cfg(test)]
mod tests;
mod view;

pub use board::{Board, Seat};
pub use laws::{
    all_is_done_at_the_end, claims_are_bounded, each_is_claimed_once, pieces_are_counted,
};
pub use limits::{MAX_PIECES, MAX_SEATS};
pub use view::{Entry, View};
