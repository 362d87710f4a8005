//! The tables, views and scenarios of a session: bound statements go in, one after another.
//! Out come counts of rows, answers, or why a statement is refused.
//! The state after each call and each answer are those of mq_ir's `specs/Statement` and `specs/Answer`.
#![tactic(auto)]

mod blocks;
mod catalogs;
mod change_copies;
mod engine;
mod explaining;
mod expression_copies;
mod kept_views;
mod open_block;
mod refreshing;
mod scenarios;
mod uses;
mod views;

pub use engine::Engine;
pub use mq_answers::MAX_WORKERS;
pub use refreshing::refresh;
pub use views::NoView;
