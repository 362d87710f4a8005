//! What queries answer over tables: a bound query and tables go in, and who does the work. Out come its rows as they are printed,
//! or its first fault; or where the value of a cell comes from. What is kept of a view with MODEL goes in and comes out too.
//! The answers are those of mq_ir's `specs/Answer` and `specs/Explaining`.
#![tactic(auto)]

mod columns;
mod comparing;
mod cuts;
mod explaining;
mod explaining_kept;
mod gathering;
mod kept_answers;
mod kept_stretches;
mod model_rows;
mod models;
mod printing;
mod queries;
mod results;
mod stretches;
mod workers;

pub use comparing::{answer_of_lent, kept_answer_beside};
pub use explaining::explained_over;
pub use explaining_kept::explained_kept;
pub use kept_answers::kept_answer;
pub use queries::answer_over;
pub use workers::{Crew, MAX_WORKERS, Workers};
