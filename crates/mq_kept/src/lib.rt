//! What is kept of a view with MODEL: its query and the tables go in; out comes what it reads of them, with what was found of each
//! partition. After a change of the tables it follows them: what the change leaves as it was is not run again.
//! What is kept is what `specs/Kept` says of it: what mq_ir's `specs/Answer` makes of the tables as they stand.
#![tactic(auto)]

mod beginning;
mod beside;
mod carrying;
mod comparing;
mod copying;
mod counting;
mod following;
mod following_lent;
mod kept_view;
mod lending;
mod moving;
mod reading;
mod refreshing;
mod renewing;
mod renewing_lent;
mod row_changes;
mod same_rows;
mod settling;
mod shapes;
mod showing;
mod sources;
mod standing;

pub use beginning::begun;
pub use beside::parts_beside;
pub use carrying::{MOST_FOLLOWED, carried};
pub use following::followed;
pub use following_lent::{OldRows, follow_lent, lend_view};
pub use kept_view::{KeptPart, KeptView, PartState, ShapedCells, SharedShape, ShownRows};
pub use lending::LentPart;
pub use reading::query_reads;
pub use refreshing::refreshed;
pub use renewing::{renew, renew_parts};
pub use settling::{settle, settle_all};
pub use shapes::LONGEST_WITH_COURSE;
pub use showing::show;
pub use standing::StandingView;
