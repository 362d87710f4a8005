//! The tables, and what a change makes of them before it is committed.
//! Tables and bound changes go in; out come the rows as they will stand, or why the change is refused.
//! It is exactly what mq_ir's `specs/Tables`, `specs/Changes` and `specs/Statement` say.
#![tactic(auto)]

mod ascending;
mod changing;
mod columns;
mod flags;
mod groups;
mod holding;
mod key_order;
mod keyed_rows;
mod keys;
mod laws;
mod numbered_key;
mod own_keys;
mod pending;
mod places;
mod putting_back;
mod row_numbers;
mod row_view;
mod rows;
mod scopes;
mod seeking;
mod shared_keys;
mod sizes;
mod stage;
mod staged;
mod table;
mod tables;
mod touched;
mod visits;
mod wanted;

pub use flags::Flags;
pub use laws::{old_places_ascend, updates_replace_rows};
pub use pending::Pending;
pub use row_view::RowView;
pub use stage::table_of;
pub use staged::Staged;
pub use table::Table;
pub use tables::{TableSet, Tables};
pub use touched::Touched;
