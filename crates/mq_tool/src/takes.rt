//! What a bound statement does, and the lines that it prints.

ghost use Rattle.std.specs.Prelude.{◌≡◌, ℕ, None, false};
ghost use Rattle.std.specs.List.{list_any};
ghost use Rattle.mq_ir.specs.Lines.{is_flaw};
ghost use Rattle.mq_ir.specs.Names.{is_view};
ghost use Rattle.mq_ir.specs.Statement as spec;
ghost use Rattle.mq_ir.specs.Tables.{table_at};
ghost use Rattle.mq_ir.specs.Ready.{QueryIsReady};
ghost use Rattle.mq_engine.specs.Catalogs.{catalog_of};
ghost use Rattle.mq_tool.specs.Loads.{FileMap};
ghost use Rattle.mq_tool.specs.Needs.{CanLend, CanTake};
ghost use Rattle.mq_tool.specs.Statements.{outside, taken};
ghost use Rattle.mq_tool.specs.Steps.{Takes};

use crate::blocks::{begin, take_in_block};
use crate::changes::do_change;
use crate::explaining::explain;
use crate::scenarios::{compare, create_scenario, drop_scenario, take_in};
use mq_engine::Engine;
use mq_io::Gate;
use mq_ir::{Answer, Bound, BoundQuery, TableDef};
use mq_render::{answer_text, done_text};
use mq_values::{Fail, Refused, Words};
use std::alloc::Global;
use std::thread::Threads;

/// Does a bound statement that is no LOAD and starts on this line, appends its lines to `out`, and answers whether one of
/// them is an error or a fault; or why it is refused, and then nothing is changed or appended (docs/MEANING.md,
/// "Statements").
pub(crate) fn take<R: Threads + Sync, G: Gate>(
    rt: &R,
    alloc: Global,
    engine: &mut Engine,
    line: u32,
    bound: Bound,
    out: &mut Vec<u8>,
    gate: &G,
) -> Result<bool, Fail<Refused>>
    requires { CanTake engine.old bound }
    ensures { (files : FileMap) → Takes (taken files engine.old line bound) engine.old engine.new out.old.items out.new.items result }
{
    match engine.block_line() {
        None => take_outside(rt, alloc, engine, line, bound, out, gate),
        Some(begun) => take_in_block(alloc, engine, begun, &bound, out, gate),
    }
}

// The same where no block is there.
fn take_outside<R: Threads + Sync, G: Gate>(
    rt: &R,
    alloc: Global,
    engine: &mut Engine,
    line: u32,
    bound: Bound,
    out: &mut Vec<u8>,
    gate: &G,
) -> Result<bool, Fail<Refused>>
    requires can { CanTake engine.old bound }
    requires outside { engine.old.block ≡ None }
    ensures { (files : FileMap) → Takes (outside files engine.old line bound) engine.old engine.new out.old.items out.new.items result }
{
    match bound {
        Bound::CreateTable(def) => create_table(alloc, engine, def, out),
        Bound::CreateView(name, query) => create_view(alloc, engine, &name, query, out, gate),
        Bound::Under(name, change) => take_in(engine, &name, change, out),
        lent => take_lent(rt, alloc, engine, line, &lent, out, gate),
    }
}

// The same of a bound statement of which the engine keeps no part.
fn take_lent<R: Threads + Sync, G: Gate>(
    rt: &R,
    alloc: Global,
    engine: &mut Engine,
    line: u32,
    bound: &Bound,
    out: &mut Vec<u8>,
    gate: &G,
) -> Result<bool, Fail<Refused>>
    requires can { CanLend engine.old bound.now }
    requires outside { engine.old.block ≡ None }
    ensures { (files : FileMap) → Takes (outside files engine.old line bound.now) engine.old engine.new out.old.items out.new.items result }
{
    match bound {
        Bound::DropTable(name) => drop_table(engine, name, out),
        Bound::DropView(name) => drop_view(engine, name, out),
        Bound::Change(change) => do_change(alloc, engine, change, out, gate),
        Bound::Show(name) => show(rt, alloc, engine, name, out, gate),
        Bound::Query(query) => ask(rt, alloc, engine, query, out, gate),
        Bound::Begin => begin(alloc, engine, line, out),
        Bound::Commit | Bound::Rollback => Err(Fail::Cause(Refused::NoBlock)),
        Bound::CreateScenario(name) => create_scenario(alloc, engine, name, out),
        Bound::DropScenario(name) => drop_scenario(engine, name, out),
        Bound::Compare(view, names) => {
            compare(rt, alloc, engine, view, names.as_slice(), out, gate)
        }
        Bound::ExplainCell(asked) => explain(alloc, engine, asked, out, gate),
        // Those of which it keeps a part, and LOAD, do not come.
        _ => Err(Fail::Cause(Refused::Syntax)),
    }
}

fn create_table(
    alloc: Global,
    engine: &mut Engine,
    def: TableDef,
    out: &mut Vec<u8>,
) -> Result<bool, Fail<Refused>>
    requires named { table_at engine.old.tables def.name ≡ None }
    requires outside { engine.old.block ≡ None }
    ensures { (files : FileMap) (line : ℕ) → Takes (outside files engine.old line (Bound.CreateTable def)) engine.old engine.new out.old.items out.new.items result }
{
    engine.create_table(alloc, def)?;
    done_text(out)?;
    Ok(false)
}

fn drop_table(engine: &mut Engine, name: &Words, out: &mut Vec<u8>) -> Result<bool, Fail<Refused>>
    requires { engine.old.block ≡ None }
    ensures { (files : FileMap) (line : ℕ) → Takes (outside files engine.old line (Bound.DropTable name.now)) engine.old engine.new out.old.items out.new.items result }
{
    engine.drop_table(name.as_str())?;
    done_text(out)?;
    Ok(false)
}

fn create_view<G: Gate>(
    alloc: Global,
    engine: &mut Engine,
    name: &Words,
    query: BoundQuery,
    out: &mut Vec<u8>,
    gate: &G,
) -> Result<bool, Fail<Refused>>
    requires named { is_view (catalog_of engine.old) name.now ≡ false }
    requires ready { QueryIsReady query }
    ensures { (files : FileMap) (line : ℕ) → Takes (outside files engine.old line (Bound.CreateView name.now query)) engine.old engine.new out.old.items out.new.items result }
{
    engine.create_view(alloc, name.as_str(), query, gate)?;
    done_text(out)?;
    Ok(false)
}

fn drop_view(engine: &mut Engine, name: &Words, out: &mut Vec<u8>) -> Result<bool, Fail<Refused>>
    ensures { (files : FileMap) (line : ℕ) → Takes (outside files engine.old line (Bound.DropView name.now)) engine.old engine.new out.old.items out.new.items result }
{
    engine.drop_view(name.as_str());
    done_text(out)?;
    Ok(false)
}

fn show<R: Threads + Sync, G: Gate>(
    rt: &R,
    alloc: Global,
    engine: &mut Engine,
    name: &Words,
    out: &mut Vec<u8>,
    gate: &G,
) -> Result<bool, Fail<Refused>>
    ensures { (files : FileMap) (line : ℕ) → Takes (outside files engine.old line (Bound.Show name.now)) engine.old engine.new out.old.items out.new.items result }
{
    match engine.answer(rt, alloc, name.as_str(), gate) {
        Ok(answer) => {
            answer_text(&answer, out)?;
            Ok(is_fault(&answer))
        }
        Err(Fail::Cause(none)) => Err(Fail::Cause(Refused::UnknownName(none.name))),
        Err(Fail::Memory) => Err(Fail::Memory),
    }
}

fn ask<R: Threads + Sync, G: Gate>(
    rt: &R,
    alloc: Global,
    engine: &Engine,
    query: &BoundQuery,
    out: &mut Vec<u8>,
    gate: &G,
) -> Result<bool, Fail<Refused>>
    requires { QueryIsReady query.now }
    ensures { (files : FileMap) (line : ℕ) → Takes (outside files engine.now line (Bound.Query query.now)) engine.now engine.now out.old.items out.new.items result }
{
    let answer = engine.query(rt, alloc, query, gate)?;
    answer_text(&answer, out)?;
    Ok(is_fault(&answer))
}

/// Whether the lines of an answer have a fault.
#[tactic(auto, using(crate::proofs::LineLemmas::no_flaw_line))]
pub(crate) fn is_fault(answer: &Answer) -> bool
    ensures { result ≡ list_any is_flaw (spec.answer_lines answer.now) }
{
    match answer {
        Answer::Rows(_) => false,
        Answer::Fault(_) => true,
    }
}
