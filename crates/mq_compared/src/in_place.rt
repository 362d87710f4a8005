//! The changes of a scenario are made in place, what is lent of a kept view follows each, and they are taken back.
ghost use Rattle.std.specs.Prelude.{◌≡◌, true, None, Some, drop, IfOk, IfSome, OnErr};
ghost use Rattle.std.specs.Option.{option_copied};
ghost use Rattle.mq_ir.specs.declared.query.Compared.TheVariants.{Shown};
ghost use Rattle.mq_ir.specs.Ready.{QueryIsReady};
ghost use Rattle.mq_ir.specs.Scenarios.{compared};
ghost use Rattle.mq_kept.specs.FollowingLent.{IsLent};
ghost use Rattle.mq_compared.specs.InPlace.{IsLentUnder};
ghost use Rattle.mq_compared.specs.Kept.{IsKeptOf};
ghost use Rattle.mq_tables.specs.PuttingBack.{WasReplaced};
ghost use Rattle.mq_kept.specs.Standing.{IsStanding};

use mq_answers::answer_of_lent;
use mq_ir::{Answer, BoundQuery, Change, ModelPart, Row};
use mq_kept::{KeptView, LentPart, OldRows, StandingView, follow_lent, lend_view};
use mq_tables::{Tables, Touched, table_of, updates_replace_rows};
use mq_values::{Fail, Items, Memory};
use std::alloc::Global;

/// What a query answers over the tables as these changes leave them. Nothing comes where it is not found in this way: where nothing
/// serves of what is kept of the view, a change is no UPDATE, sets a column of the key or is refused, or what is lent cannot follow it.
pub fn answer_in_place(
    alloc: Global,
    tables: &mut Tables,
    q: &BoundQuery,
    kept: Option<&StandingView>,
    changes: &[Change],
) -> Result<Option<Answer>, Memory>
    requires ready { QueryIsReady q.now }
    requires kept { IfSome (option_copied kept) (IsKeptOf tables.old q.now) }
    ensures exact { IfOk result (λ found. IfSome found (λ a. compared tables.old q.now changes.now ≡ Shown a)) }
    ensures same { tables.new ≡ tables.old }
{
    match (&q.model, kept) {
        (Some(part), Some(kept)) => answer_of_kept(alloc, tables, q, part, kept, changes),
        _ => Ok(None),
    }
}

// The same of a query with MODEL of which something is kept.
fn answer_of_kept(
    alloc: Global,
    tables: &mut Tables,
    q: &BoundQuery,
    part: &ModelPart,
    kept: &StandingView,
    changes: &[Change],
) -> Result<Option<Answer>, Memory>
    requires ready { QueryIsReady q.now }
    requires model { q.now.model ≡ Some part.now }
    requires standing { IsStanding tables.old q.now part.now kept.now }
    ensures exact { IfOk result (λ found. IfSome found (λ a. compared tables.old q.now changes.now ≡ Shown a)) }
    ensures same { tables.new ≡ tables.old }
{
    let Some(mut parts) = lend_view(alloc, kept)? else {
        return Ok(None);
    };
    let lending = Lending {
        q,
        part,
        view: &kept.view,
    };
    if !follow_all(alloc, tables, &lending, changes, 0, parts.as_mut_slice())? {
        return Ok(None);
    }
    Ok(Some(answer_of_lent(alloc, q, part, &kept.view, parts)?))
}

// Whose partitions are lent.
#[derive(Drop)]
struct Lending<'a> {
    q: &'a BoundQuery,
    part: &'a ModelPart,
    view: &'a KeptView,
}

// Makes the changes from this one on, one after another, lets the partitions that are lent follow each, and takes them back. `true`: all
// were made, and the partitions are those over the tables as they leave them.
fn follow_all(
    alloc: Global,
    tables: &mut Tables,
    lending: &Lending<'_>,
    changes: &[Change],
    at: usize,
    parts: &mut [LentPart<'_>],
) -> Result<bool, Memory>
    requires ready { QueryIsReady lending.now.q.now }
    requires model { lending.now.q.now.model ≡ Some lending.now.part.now }
    requires lent { IsLent tables.old lending.now.q.now lending.now.part.now lending.now.view.now parts.old }
    ensures followed { IfOk result (λ done. done ≡ true
        → IsLentUnder tables.old (drop at changes.now) lending.now.q.now lending.now.part.now lending.now.view.now parts.new) }
    ensures same { tables.new ≡ tables.old }
{
    let Some(change) = changes.get(at) else {
        return Ok(true);
    };
    let Some(were) = made(alloc, tables, change)? else {
        return Ok(false);
    };
    updates_replace_rows();
    let old = OldRows {
        table: table_of(change).as_str(),
        were: were.as_slice(),
    };
    let done = match follow_lent(
        alloc,
        tables,
        lending.q,
        lending.part,
        lending.view,
        &old,
        parts,
    ) {
        Ok(true) => follow_all(alloc, tables, lending, changes, at + 1, parts),
        other => other,
    };
    tables.put_back(change, were);
    done
}

// Makes a change in place, where it can be taken back, and tells the rows that it replaced. Where nothing comes, nothing is altered.
fn made(
    alloc: Global,
    tables: &mut Tables,
    change: &Change,
) -> Result<Option<Items<(u32, Row)>>, Memory>
    ensures made { IfOk result (λ found. IfSome found (λ were. WasReplaced change.now were tables.old tables.new)) }
    ensures left { IfOk result (λ found. found ≡ None → tables.new ≡ tables.old) }
    ensures err { OnErr result (tables.new ≡ tables.old) }
{
    if !tables.sets_no_key(change) {
        return Ok(None);
    }
    match tables.change(alloc, change) {
        Ok(Touched::Replaced(were)) => Ok(Some(were)),
        Ok(_) => unreachable!(),
        Err(Fail::Cause(_)) => Ok(None),
        Err(Fail::Memory) => Err(Memory),
    }
}
