//! Partitions of a kept view that are lent, beside others that stand in the place of kept ones.
ghost use Rattle.std.specs.Prelude.{◌≡◌, true, is_some, Some, Err, IfOk, OnOk};
ghost use Rattle.std.specs.List.{All};
ghost use Rattle.std.specs.Option.{option_copied};
ghost use Rattle.mq_values.specs.declared.faults.QueryFault.{QueryFault as Seen};
ghost use Rattle.mq_values.specs.declared.memory.Fail.TheVariants as fail;
ghost use Rattle.mq_ir.specs.declared.query.PartResult.TheVariants as result_of;
ghost use Rattle.mq_ir.specs.Answer.{result_in};
ghost use Rattle.mq_ir.specs.Unfolding.{Model as Meant, model_of};
ghost use Rattle.mq_kept.specs.declared.kept_view.PartState.TheVariants as state_of;
ghost use Rattle.mq_kept.specs.Kept.{IsRight, inputs_of, unsettled};

use crate::copying::copy_of_input;
use crate::kept_view::{KeptPart, ShownRows};
use crate::showing::show;
use mq_ir::{Model as Lent, PartInput};
use mq_values::{Fail, Memory, QueryFault};
use std::alloc::Global;
use std::marker::Model;

/// A partition of a view over other tables than those over which it is kept: what it has in common with the one that is kept is lent.
/// Contracts see it as a partition that is kept.
#[derive(Drop)]
pub struct LentPart<'a> {
    held: Held<'a>,
}

// The input of a kept partition and the rows that it shows, or a partition of one's own.
#[derive(Drop)]
enum Held<'a> {
    Lent(&'a PartInput, &'a ShownRows),
    Own(KeptPart),
}

impl<'a> Model for LentPart<'a> {
    ghost use Rattle.mq_kept.specs.declared.kept_view.KeptPart.{KeptPart as Seen};
    ghost use Rattle.mq_kept.specs.Lent.{part_in};

    ghost Value = { Seen };

    ghost view = { λ lent. part_in lent.held };
}

impl<'a> LentPart<'a> {
    /// A partition of which nothing was found yet.
    pub fn own(input: PartInput) -> LentPart<'a>
        ensures { result ≡ unsettled input }
    {
        LentPart {
            held: Held::Own(KeptPart::new(input)),
        }
    }

    // One that is kept, by its input and the rows that it shows.
    fn lent(input: &'a PartInput, shown: &'a ShownRows) -> LentPart<'a>
        ensures { result ≡ record { input = input.now; state = state_of.NotKept; shown = Some shown.now } }
    {
        LentPart {
            held: Held::Lent(input, shown),
        }
    }

    /// Its input.
    pub fn input(&self) -> &PartInput
        ensures { result.now ≡ self.now.input }
    {
        match &self.held {
            Held::Lent(input, _) => input,
            Held::Own(part) => &part.input,
        }
    }

    /// The rows that it adds to the answer, where these were made.
    pub fn shown(&self) -> Option<&ShownRows>
        ensures { option_copied result ≡ self.now.shown }
    {
        match &self.held {
            Held::Lent(_, shown) => Some(shown),
            Held::Own(part) => part.shown.as_ref(),
        }
    }

    /// Makes the rows that it adds to the answer, where that was not done yet, as `show` does of a partition that is kept.
    pub fn show(&mut self, alloc: Global, m: &Lent<'_>) -> Result<(), Fail<QueryFault>>
        requires right { IsRight (model_of m.now) self.old }
        ensures shown { OnOk result (is_some self.new.shown ≡ true) }
        ensures fault { (fault : Seen) → result ≡ Err (fail.Cause fault) → result_in (model_of m.now) self.old.input ≡ result_of.Fault fault }
        ensures right { IsRight (model_of m.now) self.new }
        ensures same_input { self.new.input ≡ self.old.input }
    {
        match &mut self.held {
            Held::Lent(_, _) => Ok(()),
            Held::Own(part) => show_own(alloc, m, part),
        }
    }
}

// The same of a partition of one's own. What is read of its store is counted for no view.
fn show_own(alloc: Global, m: &Lent<'_>, part: &mut KeptPart) -> Result<(), Fail<QueryFault>>
    requires right { IsRight (model_of m.now) part.old }
    ensures shown { OnOk result (is_some part.new.shown ≡ true) }
    ensures fault { (fault : Seen) → result ≡ Err (fail.Cause fault) → result_in (model_of m.now) part.old.input ≡ result_of.Fault fault }
    ensures right { IsRight (model_of m.now) part.new }
    ensures same_input { part.new.input ≡ part.old.input }
{
    let mut reads = 0;
    show(alloc, m, part, &mut reads)
}

/// The partitions of a view, lent. Of one whose rows were not made yet the input is copied. `Memory` is the only error.
pub fn lent_parts<'a>(alloc: Global, parts: &'a [KeptPart]) -> Result<Vec<LentPart<'a>>, Memory>
    ensures same { IfOk result (λ lent. inputs_of lent.items ≡ inputs_of parts.now) }
    ensures right { (model : Meant) → All (IsRight model) parts.now → IfOk result (λ lent. All (IsRight model) lent.items) }
{
    let mut lent = Vec::with_capacity(alloc, parts.len())?;
    for part in parts {
        lent.push(lent_part(alloc, part)?)?;
    }
    Ok(lent)
}

fn lent_part<'a>(alloc: Global, part: &'a KeptPart) -> Result<LentPart<'a>, Memory>
    ensures same { IfOk result (λ lent. lent.input ≡ part.now.input) }
    ensures right { (model : Meant) → IsRight model part.now → IfOk result (IsRight model) }
{
    match &part.shown {
        Some(shown) => Ok(LentPart::lent(&part.input, shown)),
        None => Ok(LentPart::own(copy_of_input(alloc, &part.input)?)),
    }
}
