//! How much is kept, and how much was read of it.
use crate::kept_view::{KeptPart, KeptView, PartState};
use mq_cells::IndexedCells;

impl KeptView {
    /// How many partitions are kept: in automatic order those that have their shape and their store, in sequential order those that
    /// have their result. It takes no memory.
    pub fn kept_count(&self, automatic: bool) -> u32 {
        let mut count: u32 = 0;
        for part in self.parts.as_slice() {
            if is_kept(part, automatic) {
                count = count.saturating_add(1);
            }
        }
        count
    }
}

// Whether a partition is kept. In automatic order one that came to a fault of its shape is not.
fn is_kept(part: &KeptPart, automatic: bool) -> bool {
    match &part.state {
        PartState::NotKept => false,
        PartState::Automatic(_) => true,
        PartState::Made(_) => !automatic,
    }
}

/// Adds to `reads` what was read of a store since its count of looks stood here.
pub fn add_reads(looks: u64, cells: &IndexedCells, reads: &mut u64) {
    *reads = reads.saturating_add(cells.looks().saturating_sub(looks));
}
