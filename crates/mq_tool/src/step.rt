//! One statement: it is read, bound and done, and its lines are written into a buffer.

ghost use Rattle.std.specs.Prelude.{◌≡◌, ◌≤◌, Some, IfOk, IsErrOf};
ghost use Rattle.mq_io.specs.Causes.{Rose};
ghost use Rattle.mq_lexer.specs.Statements as lexer;
ghost use Rattle.mq_tool.specs.Loads.{FileMap};
ghost use Rattle.mq_tool.specs.Needs.{CanRun, IsLoadBound};
ghost use Rattle.mq_tool.specs.Statements.{after_refusal, taken};
ghost use Rattle.mq_tool.specs.Steps.{Does, Ends, IsLoadAt, Tries};

use crate::loads::load;
use crate::reading::{bound_of, read};
use crate::stops::Stop;
use crate::takes::take;
use mq_engine::Engine;
use mq_io::{Gate, IoFault, Shelf};
use mq_ir::Bound;
use mq_lexer::Statement;
use mq_render::refusal_text;
use mq_values::Refused;
use std::alloc::Global;
use std::thread::Threads;

/// Does a statement, appends its lines to `out`, and answers whether one of them is an error or a fault
/// (docs/MEANING.md, "Scripts"). A statement that is refused alters nothing, but that a block that is there notes its line, or is
/// ended by a refused COMMIT. `Failed` comes where the shelf failed, at a LOAD that is read and bound, and then nothing is
/// altered.
pub fn do_statement<R: Threads + Sync, F: Shelf, G: Gate>(
    rt: &R,
    alloc: Global,
    engine: &mut Engine,
    statement: &Statement<'_, '_>,
    files: &mut F,
    out: &mut Vec<u8>,
    gate: &G,
) -> Result<bool, IoFault>
    ensures done { IfOk result (Does (lexer.statement statement.now) (F.files files.old) engine.old engine.new out.old.items out.new.items) }
    ensures files { F.files files.new ≡ F.files files.old }
    ensures later { F.faults files.old ≤ F.faults files.new }
    ensures load { IsErrOf result IoFault.Failed → IsLoadAt (lexer.statement statement.now) engine.old }
    ensures failed { IsErrOf result IoFault.Failed → Rose (F.faults files.old) (F.faults files.new) }
{
    match try_statement(rt, alloc, engine, statement, files, out, gate) {
        Ok(flaw) => Ok(flaw),
        Err(Stop::Refused(refused)) => {
            settle(engine, statement.line, &refused);
            match refusal_text(statement.line, &refused, out) {
                Ok(()) => Ok(true),
                Err(_) => Err(IoFault::Memory),
            }
        }
        Err(Stop::NotFetched) => Err(IoFault::Failed),
        Err(Stop::Memory) => Err(IoFault::Memory),
    }
}

// What the refusal of the statement on this line leaves: a block notes the line, and a refused COMMIT ends it.
fn settle(engine: &mut Engine, line: u32, refused: &Refused)
    ensures { engine.new ≡ after_refusal engine.old line refused.now }
{
    match refused {
        Refused::BlockBroken(_) => engine.rollback(),
        _ => engine.note_refusal(line),
    }
}

// Does a statement, or answers why it is not done, and then nothing is changed or appended.
fn try_statement<R: Threads + Sync, F: Shelf, G: Gate>(
    rt: &R,
    alloc: Global,
    engine: &mut Engine,
    statement: &Statement<'_, '_>,
    files: &mut F,
    out: &mut Vec<u8>,
    gate: &G,
) -> Result<bool, Stop>
    ensures done { Tries (lexer.statement statement.now) (F.files files.old) engine.old engine.new out.old.items out.new.items result }
    ensures files { F.files files.new ≡ F.files files.old }
    ensures later { F.faults files.old ≤ F.faults files.new }
    ensures failed { IsErrOf result Stop.NotFetched → Rose (F.faults files.old) (F.faults files.new) }
{
    let tree = read(alloc, statement.tokens)?;
    let bound = bound_of(alloc, engine, tree.get())?;
    do_bound(rt, alloc, engine, statement.line, bound, files, out, gate)
}

// Does a bound statement that starts on this line, or answers why it is not done, and then nothing is changed or appended.
fn do_bound<R: Threads + Sync, F: Shelf, G: Gate>(
    rt: &R,
    alloc: Global,
    engine: &mut Engine,
    line: u32,
    bound: Bound,
    files: &mut F,
    out: &mut Vec<u8>,
    gate: &G,
) -> Result<bool, Stop>
    requires { CanRun engine.old bound }
    ensures done { (told : FileMap) → F.files files.old ≡ Some told
        → Ends (taken told engine.old line bound) engine.old engine.new out.old.items out.new.items result }
    ensures files { F.files files.new ≡ F.files files.old }
    ensures later { F.faults files.old ≤ F.faults files.new }
    ensures load { IsErrOf result Stop.NotFetched → IsLoadBound bound }
    ensures not_fetched { IsErrOf result Stop.NotFetched → (engine.new ≡ engine.old) × (out.new ≡ out.old) }
    ensures failed { IsErrOf result Stop.NotFetched → Rose (F.faults files.old) (F.faults files.new) }
{
    match bound {
        Bound::Load(table, file) => load(alloc, engine, table, &file, files, out, gate),
        bound => Ok(take(rt, alloc, engine, line, bound, out, gate)?),
    }
}
