//! What a stable sort gives.
ghost use Rattle.std.specs.declared.cmp.Ordering.{Ordering};
ghost use Rattle.mq_ir.specs.StableSort.{StableSortAscends};

/// What the standard library's stable sort gives by a total order is the list in ascending order
/// (docs/MEANING.md, "Partitions").
pub fn stable_sorts_ascend<T>()
    ensures { (order : T → T → Ordering) → StableSortAscends order }
{}
