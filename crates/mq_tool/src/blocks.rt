//! What stands in a block, and its BEGIN.

ghost use Rattle.std.specs.Prelude.{◌≡◌, ℕ, List, None, true, Err, is_some};
ghost use Rattle.mq_tool.specs.Loads.{FileMap};
ghost use Rattle.mq_tool.specs.Needs.{BeganAt, CanTake};
ghost use Rattle.mq_tool.specs.Statements.{outside};
ghost use Rattle.mq_tool.specs.Steps.{Takes, TakesInside};

use crate::changes::do_change;
use mq_engine::Engine;
use mq_io::Gate;
use mq_ir::Bound;
use mq_render::{count_text, done_text};
use mq_values::{Fail, Refused, Words};
use std::alloc::Global;

/// BEGIN on this line, where no block is there (docs/MEANING.md, "Blocks").
pub(crate) fn begin(
    alloc: Global,
    engine: &mut Engine,
    line: u32,
    out: &mut Vec<u8>,
) -> Result<bool, Fail<Refused>>
    requires { engine.old.block ≡ None }
    ensures { (files : FileMap) → Takes (outside files engine.old line Bound.Begin) engine.old engine.new out.old.items out.new.items result }
{
    engine.begin(alloc, line);
    done_text(out)?;
    Ok(false)
}

/// Does a bound statement that is no LOAD in the block that is there, whose BEGIN is on the line `begun`, appends its lines
/// to `out`, and answers whether one of them is an error or a fault; or why it is refused, and then nothing is changed or
/// appended (docs/MEANING.md, "Blocks").
pub(crate) fn take_in_block<G: Gate>(
    alloc: Global,
    engine: &mut Engine,
    begun: u32,
    bound: &Bound,
    out: &mut Vec<u8>,
    gate: &G,
) -> Result<bool, Fail<Refused>>
    requires can { CanTake engine.old bound.now }
    requires there { BeganAt engine.old begun }
    ensures { TakesInside bound.now engine.old engine.new out.old.items out.new.items result }
{
    match bound {
        Bound::Change(change) => do_change(alloc, engine, change, out, gate),
        Bound::Begin => Err(Fail::Cause(Refused::BlockOpen(begun))),
        Bound::Commit => commit(alloc, engine, out, gate),
        Bound::Rollback => roll_back(engine, out),
        Bound::Show(name) => Err(not_shown(engine, begun, name)),
        _ => Err(Fail::Cause(Refused::InBlock(begun))),
    }
}

// COMMIT of the block that is there.
fn commit<G: Gate>(
    alloc: Global,
    engine: &mut Engine,
    out: &mut Vec<u8>,
    gate: &G,
) -> Result<bool, Fail<Refused>>
    requires { is_some engine.old.block ≡ true }
    ensures { TakesInside Bound.Commit engine.old engine.new out.old.items out.new.items result }
{
    let count = engine.commit(alloc, gate)?;
    count_text(count as usize, out)?;
    Ok(false)
}

// ROLLBACK of the block that is there.
fn roll_back(engine: &mut Engine, out: &mut Vec<u8>) -> Result<bool, Fail<Refused>>
    ensures { TakesInside Bound.Rollback engine.old engine.new out.old.items out.new.items result }
{
    engine.rollback();
    done_text(out)?;
    Ok(false)
}

// Why SHOW is refused in the block that is there: no view has the name, or SHOW may not stand there.
fn not_shown(engine: &Engine, begun: u32, name: &Words) -> Fail<Refused>
    requires { BeganAt engine.now begun }
    ensures { (out : List ℕ) → TakesInside (Bound.Show name.now) engine.now engine.now out out (Err result) }
{
    if engine.catalog().is_view(name.as_str()) {
        return Fail::Cause(Refused::InBlock(begun));
    }
    match name.copy() {
        Ok(name) => Fail::Cause(Refused::UnknownName(name)),
        Err(_) => Fail::Memory,
    }
}
