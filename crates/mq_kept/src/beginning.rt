//! A view of which nothing was kept.
ghost use Rattle.std.specs.Prelude.{◌≡◌, Some, map, IfOk};
ghost use Rattle.std.specs.List.{All};
ghost use Rattle.mq_ir.specs.declared.query.ModelPart.{ModelPart};
ghost use Rattle.mq_ir.specs.Ready.{IsReady, QueryIsReady};
ghost use Rattle.mq_kept.specs.Kept.{AllRight, IsBegun, view_in};
ghost use Rattle.mq_kept.specs.Kept as spec;
ghost use Rattle.mq_kept.specs.Sources.{found_in};

use crate::kept_view::{KeptPart, KeptView};
use crate::sources::{Sources, sources_over};
use mq_ir::{BoundQuery, ModelPart, PartInput};
use mq_tables::TableSet;
use mq_values::{Fail, Items, Memory, QueryFault};
use std::alloc::Global;

/// What is kept of a view with MODEL from now on, over these tables: nothing was found of its partitions yet. Or the fault that its
/// query has before its partitions, which is what it answers (docs/MEANING.md, "Answers").
pub fn begun<T: TableSet>(
    alloc: Global,
    tables: &T,
    q: &BoundQuery,
    part: &ModelPart,
) -> Result<KeptView, Fail<QueryFault>>
    requires ready { QueryIsReady q.now }
    requires model { q.now.model ≡ Some part.now }
    ensures { IsBegun (T.tables tables.now) q.now part.now result }
{
    let found = sources_over(alloc, tables, q, part)?;
    let view = unsettled(alloc, found)?;
    Ok(view)
}

/// A view over these sources, of which nothing was found yet.
pub fn unsettled(alloc: Global, found: Sources) -> Result<KeptView, Memory>
    ensures same { IfOk result (λ view. (part : ModelPart) → view_in part view ≡ found_in part found) }
    ensures right { (part : ModelPart) → All (IsReady part) found.inputs → IfOk result (AllRight part) }
    ensures lines { IfOk result (λ view. view.lines ≡ found.lines) }
{
    let Sources {
        inputs,
        lists,
        refs,
        lines,
    } = found;
    let parts = unsettled_parts(alloc, inputs)?;
    Ok(KeptView {
        lists,
        refs,
        parts,
        lines,
    })
}

// Partitions of which nothing was found yet.
fn unsettled_parts(alloc: Global, inputs: Items<PartInput>) -> Result<Items<KeptPart>, Memory>
    ensures { IfOk result (λ parts. parts ≡ map spec.unsettled inputs) }
{
    let mut parts = Items::with_room(alloc, inputs.len());
    for input in inputs.into_vec() {
        parts.push(KeptPart::new(input))?;
    }
    Ok(parts)
}
