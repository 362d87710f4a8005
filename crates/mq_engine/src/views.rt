//! Views that are asked for.
use mq_values::Words;

/// There is no view of this name.
#[derive(Debug, Drop, PartialEq, Eq)]
pub struct NoView {
    pub name: Words,
}
