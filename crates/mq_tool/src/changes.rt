//! Changes of rows, in a block and outside of one.

ghost use Rattle.std.specs.Prelude.{◌≡◌, ◌∷◌, [], OnErr};
ghost use Rattle.mq_values.specs.Answers.{Gives, result_map};
ghost use Rattle.mq_ir.specs.Lines.{Counted};
ghost use Rattle.mq_tool.specs.Steps.{Takes, changed};

use mq_engine::Engine;
use mq_io::Gate;
use mq_ir::Change;
use mq_render::count_text;
use mq_values::{Fail, Refused};
use std::alloc::Global;

/// Changes the rows of a table, or those that are pending in the block that is there, appends the line with the number of
/// rows that are counted to `out`, and answers that no line is a flaw; or why the change is refused, and then nothing is
/// changed or appended (docs/MEANING.md, "Changes").
pub(crate) fn do_change<G: Gate>(
    alloc: Global,
    engine: &mut Engine,
    change: &Change,
    out: &mut Vec<u8>,
    gate: &G,
) -> Result<bool, Fail<Refused>>
    ensures { Takes (changed engine.old change.now) engine.old engine.new out.old.items out.new.items result }
{
    let count = counted(alloc, engine, change, gate)?;
    count_text(count as usize, out)?;
    Ok(false)
}

// How many rows a change counts, once it is done or held.
fn counted<G: Gate>(
    alloc: Global,
    engine: &mut Engine,
    change: &Change,
    gate: &G,
) -> Result<u64, Fail<Refused>>
    ensures exact { Gives (result_map (λ count. (engine.new, Counted count ∷ [])) result) (changed engine.old change.now) }
    ensures err { OnErr result (engine.new ≡ engine.old) }
{
    if engine.in_block() {
        engine.hold(alloc, change)
    } else {
        engine.apply(alloc, change, gate)
    }
}
