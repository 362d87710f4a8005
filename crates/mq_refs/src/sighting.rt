//! What was seen at a measure.
use mq_ir::CellName;
use mq_values::Value;

/// A measure of a cell, and the value that stood there.
#[derive(Drop)]
pub struct Sighting {
    pub name: CellName,
    pub value: Value,
}
