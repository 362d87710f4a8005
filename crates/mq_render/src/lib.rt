//! The bytes that statements print.
//! An answer, a refusal, a count, a comparison or a derivation goes in; its lines are appended to a buffer.
//! They are exactly the texts of mq_ir's `specs/Lines`, and after want of memory the buffer is as before.
#![tactic(auto)]

mod answers;
mod comparisons;
mod derivations;
mod names;
mod pieces;
mod refusals;

pub use answers::{answer_text, count_text, done_text};
pub use comparisons::compared_text;
pub use derivations::derivation_text;
pub use names::{fault_name, kind_name};
pub use refusals::{refusal_text, refusal_words};
