//! The rules of a model in automatic order: a model and the input of a partition go in.
//! Out come what is assigned with the values of the cells, or the first fault.
//! It is what mq_ir's `specs/Automatic` says.
#![tactic(auto)]

mod computing;
mod finding;
mod input_keys;
mod judging;
mod outcomes;
mod results;
mod rows;
mod runner;
mod stored;
mod threads;
mod values;
mod verdict;
mod walking;
mod work;

pub use computing::compute;
pub use finding::{ByLending, Finder};
pub use judging::{judge, serves};
pub use mq_auto_shape::shape_of;
pub use outcomes::run_auto;
pub use results::result_of;
pub use runner::AutoRunner;
pub use stored::stored_result;
pub use threads::ByThreads;
pub use values::values_over;
pub use verdict::Verdict;
pub use work::Work;
