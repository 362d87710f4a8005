//! Laws of the versions of a partition in sequential order: what they tell of its result, that no value is in them, and
//! what a change of its input does to them. Each law is a function that only calls laws below it: its contract is the law.
#![tactic(auto)]

mod affected;
mod histories;
mod kept;
mod runs;
mod worked;

pub use affected::{
    affected_links_go_by_looks, affected_versions_are_least, affected_versions_go_by_looks,
    same_keys_seed_none, unaffected_versions_keep, unaffected_versions_stay_kept,
};
pub use histories::{
    histories_are_slots, last_versions_stand, unfaulted_versions_are_done, versions_are_sound,
    versions_are_worth_their_looks,
};
pub use kept::{
    histories_tell_their_versions, kept_keys_tell, kept_slots_are_slots, kept_versions_stand_apart,
    nothing_is_kept_elsewhere, versions_are_wide,
};
pub use runs::{runs_are_versions, versions_see_no_value};
pub use worked::worked_versions;
