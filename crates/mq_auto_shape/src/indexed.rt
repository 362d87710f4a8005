//! A shape with its keys as indexes.
use mq_dim_index::DimIndex;
use mq_ir::PartShape;
use mq_levels::Leveled;

/// A shape with the rounds of its assignments, and its keys as indexes: those of its input, and those of all its cells.
#[derive(Drop)]
pub struct IndexedShape {
    pub shape: PartShape,
    pub leveled: Leveled,
    pub base: DimIndex,
    pub cells: DimIndex,
}
