//! The rules of a shape, by the measures that they assign.
ghost use Rattle.std.specs.Prelude.{◌≡◌, IfOk};
ghost use Rattle.mq_lineage.specs.Nodes.{HasRulesOf};
ghost use Rattle.mq_lineage.specs.Rules.{HasRulesIn};

use crate::node_map::NodeMap;
use mq_ir::PartShape;
use mq_values::{Key, Memory};
use std::alloc::Global;

/// The number of the rule of each assigned measure.
pub fn rules_of(alloc: Global, s: &PartShape) -> Result<NodeMap, Memory>
    ensures { IfOk result (HasRulesOf s.now) }
{
    rules_in(alloc, s.assigned.as_slice())
}

// Of a measure that is assigned twice the first rule counts, so it is put last.
fn rules_in(alloc: Global, assigned: &[(Key, u32, u32)]) -> Result<NodeMap, Memory>
    ensures { IfOk result (HasRulesIn assigned.now) }
{
    let mut rules = NodeMap::new(alloc);
    let mut left = assigned.len();
    'assigned: while left > 0 {
        left -= 1;
        let assignment = &assigned[left];
        rules.put(assignment.0.copy()?, assignment.1, assignment.2)?;
    }
    Ok(rules)
}
