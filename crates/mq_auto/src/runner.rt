//! A model that runs over one partition after another.
ghost use Rattle.std.specs.Prelude.{◌≡◌, IfOk};
ghost use Rattle.mq_ir.specs.Automatic.{automatic, slots_in};
ghost use Rattle.mq_ir.specs.Ready.{IsReady};
ghost use Rattle.mq_ir.specs.Unfolding.{model_of};
ghost use Rattle.mq_refs.specs.Orders.{IsOrderOf};
ghost use Rattle.mq_auto.specs.Findings.{IsLevelled};
ghost use Rattle.mq_auto.specs.Meaning.{result_with};

use crate::finding::Finder;
use crate::judging::judge_after;
use crate::stored::stored_result;
use crate::values::values_over;
use mq_auto_shape::IndexedShape;
use mq_cells::IndexedCells;
use mq_ir::{Model as Lent, PartInput, PartResult};
use mq_refs::{RefsOrder, refs_order};
use mq_values::Memory;
use std::alloc::Global;
use std::marker::Model;

/// A model in automatic order that runs over one partition after another. Whether the cells of the references ascend is found
/// once. The last shape is kept with its rounds and its indexes: a shape sees no value of a cell, so it serves again where the
/// next partition has cells at the same keys. Contracts see the runner as its model (docs/MEANING.md, "Automatic order").
#[derive(Drop)]
pub struct AutoRunner<'a> {
    model: &'a Lent<'a>,
    refs: RefsOrder,
    last: Option<IndexedShape>,
}

impl<'a> Model for AutoRunner<'a> {
    ghost use Rattle.std.specs.Prelude.{IfSome};
    ghost use Rattle.std.specs.Coded.{codes};
    ghost use Rattle.mq_ir.specs.contracts.expression.Expr as expr;
    ghost use Rattle.mq_ir.specs.contracts.expression.Test as test;
    ghost use Rattle.mq_ir.specs.Unfolding.{Model as Seen, model_of};
    ghost use Rattle.mq_refs.specs.Orders.{IsOrderOf};
    ghost use Rattle.mq_auto.specs.Findings.{IsLevelled};

    ghost Value = { Seen };

    ghost coded = { Prim.hlevel (codes, expr.the_row.coded, test.the_row.coded) };

    ghost view = { λ r. model_of r.model.now };

    ghost invariant = { λ r. IfSome r.last (IsLevelled (model_of r.model.now)) × IsOrderOf r.refs r.model.now };
}

impl<'a> AutoRunner<'a> {
    /// A model that has run over no partition yet. It takes no memory.
    pub fn new(model: &'a Lent<'a>) -> AutoRunner<'a>
        ensures { result ≡ model_of model.now }
    {
        AutoRunner {
            model,
            refs: refs_order(model),
            last: None,
        }
    }

    /// What the rules make of a partition: its cells, or the first fault, as `run_auto` has them. `finder` is how the
    /// slots of targets are found. `Memory` is the only error.
    pub fn run<F: Finder<IndexedCells>>(
        &mut self,
        alloc: Global,
        p: &PartInput,
        finder: &F,
    ) -> Result<PartResult, Memory>
        requires ready { IsReady self.old.part p.now }
        requires finder { F.is_ready finder.now }
        ensures exact { IfOk result (λ r. r ≡ (automatic self.old p.now).1) }
        ensures same { self.new ≡ self.old }
    {
        let model = self.model;
        let refs = self.refs;
        let last = self.last.take();
        match judge_after(alloc, model, p, last)? {
            Ok(found) => {
                let result = result_over(alloc, model, p, &found, refs, finder)?;
                self.last = Some(found);
                Ok(result)
            }
            Err(fault) => Ok(PartResult::Fault(fault)),
        }
    }
}

// What the rules make of a partition of this shape.
fn result_over<F: Finder<IndexedCells>>(
    alloc: Global,
    m: &Lent<'_>,
    p: &PartInput,
    found: &IndexedShape,
    refs: RefsOrder,
    finder: &F,
) -> Result<PartResult, Memory>
    requires levelled { IsLevelled (model_of m.now) found.now }
    requires refs { IsOrderOf refs m.now }
    requires finder { F.is_ready finder.now }
    ensures { IfOk result (λ r. r ≡ result_with (model_of m.now) p.now.key found.now.shape (slots_in (model_of m.now) found.now.shape p.now.cells)) }
{
    let mut cells = values_over(alloc, m, p, found, refs, finder)?;
    stored_result(alloc, m, p, &found.shape, &mut cells)
}
