//! Scenarios, and what a view answers under them.

ghost use Rattle.std.specs.Prelude.{◌≡◌, ◌++◌, ◌<◌, ℕ, false, length, IfOk};
ghost use Rattle.std.specs.List.{list_any};
ghost use Rattle.mq_values.specs.declared.limits.TheConstants.{MAX_SCENARIO_CHANGES};
ghost use Rattle.mq_ir.specs.Lines.{is_flaw, text_of};
ghost use Rattle.mq_ir.specs.Names.{is_scenario};
ghost use Rattle.mq_ir.specs.Scenarios.{changes_at, compared_lines};
ghost use Rattle.mq_engine.specs.Catalogs.{catalog_of};
ghost use Rattle.mq_tool.specs.Comparisons.{all_compared};
ghost use Rattle.mq_tool.specs.Loads.{FileMap};
ghost use Rattle.mq_tool.specs.Statements.{outside};
ghost use Rattle.mq_tool.specs.Steps.{Takes};

use crate::takes::is_fault;
use mq_engine::Engine;
use mq_io::Gate;
use mq_ir::{Bound, Change, Compared};
use mq_render::{compared_text, count_text, done_text};
use mq_values::{Fail, Memory, Refused, Words};
use std::alloc::Global;
use std::thread::Threads;

/// CREATE SCENARIO of a name that no scenario has (docs/MEANING.md, "Scenarios").
pub(crate) fn create_scenario(
    alloc: Global,
    engine: &mut Engine,
    name: &Words,
    out: &mut Vec<u8>,
) -> Result<bool, Fail<Refused>>
    requires { is_scenario (catalog_of engine.old) name.now ≡ false }
    ensures { (files : FileMap) (line : ℕ) → Takes (outside files engine.old line (Bound.CreateScenario name.now)) engine.old engine.new out.old.items out.new.items result }
{
    engine.create_scenario(alloc, name.as_str())?;
    done_text(out)?;
    Ok(false)
}

/// DROP SCENARIO.
pub(crate) fn drop_scenario(
    engine: &mut Engine,
    name: &Words,
    out: &mut Vec<u8>,
) -> Result<bool, Fail<Refused>>
    ensures { (files : FileMap) (line : ℕ) → Takes (outside files engine.old line (Bound.DropScenario name.now)) engine.old engine.new out.old.items out.new.items result }
{
    engine.drop_scenario(name.as_str());
    done_text(out)?;
    Ok(false)
}

/// UNDER: a scenario that has room for one more change takes it in, and the line has how many it has then.
pub(crate) fn take_in(
    engine: &mut Engine,
    name: &Words,
    change: Change,
    out: &mut Vec<u8>,
) -> Result<bool, Fail<Refused>>
    requires { length (changes_at engine.old name.now) < MAX_SCENARIO_CHANGES }
    ensures { (files : FileMap) (line : ℕ) → Takes (outside files engine.old line (Bound.Under name.now change)) engine.old engine.new out.old.items out.new.items result }
{
    let count = engine.add_change(name.as_str(), change)?;
    count_text(count as usize, out)?;
    Ok(false)
}

/// COMPARE: what the view answers under each of these scenarios, over the tables as they stand. A name of which there is no
/// view is refused (docs/MEANING.md, "Scenarios").
pub(crate) fn compare<R: Threads + Sync, G: Gate>(
    rt: &R,
    alloc: Global,
    engine: &mut Engine,
    view: &Words,
    names: &[Words],
    out: &mut Vec<u8>,
    gate: &G,
) -> Result<bool, Fail<Refused>>
    ensures { (files : FileMap) (line : ℕ) → Takes (outside files engine.old line (Bound.Compare view.now names.now)) engine.old engine.new out.old.items out.new.items result }
{
    match engine.compare_in_place(rt, alloc, view.as_str(), names, gate) {
        Ok(found) => Ok(comparison_text(names, &found, out)?),
        Err(Fail::Cause(none)) => Err(Fail::Cause(Refused::UnknownName(none.name))),
        Err(Fail::Memory) => Err(Fail::Memory),
    }
}

// Appends the lines of a comparison, scenario by scenario, and answers whether one of them is a fault. After `Memory` some of
// them may be there.
fn comparison_text(names: &[Words], found: &[Compared], out: &mut Vec<u8>) -> Result<bool, Memory>
    ensures { IfOk result (λ flaw. (out.new.items ≡ out.old.items ++ text_of (all_compared names.now found.now))
        × (flaw ≡ list_any is_flaw (all_compared names.now found.now))) }
{
    let mut flaw = false;
    'scenarios: for (at, name) in names.iter().enumerate() {
        let Some(compared) = found.get(at) else {
            return Ok(flaw);
        };
        compared_text(name, compared, out)?;
        flaw = flaw | has_fault(compared);
    }
    Ok(flaw)
}

// Whether the lines of what is found under a scenario have a fault: those of a change that is refused have none.
fn has_fault(compared: &Compared) -> bool
    ensures { result ≡ list_any is_flaw (compared_lines compared.now) }
{
    match compared {
        Compared::Shown(answer) => is_fault(answer),
        Compared::Stopped(_, _) => false,
    }
}
