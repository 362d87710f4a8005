//! What a single left side assigns.
use mq_values::{Items, Key};

/// The cells that a single left side assigns, in the order in which they are assigned, and those of them that were not
/// there and are created.
#[derive(Drop)]
pub struct Targets {
    pub cells: Items<Key>,
    pub created: Items<Key>,
}
