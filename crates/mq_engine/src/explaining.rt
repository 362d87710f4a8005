//! Where the values of cells of views come from, by what is kept of the views.
ghost use Rattle.std.specs.Prelude.{◌≡◌, List, Some, IfOk, IfSome};
ghost use Rattle.std.specs.Option.{option_copied};
ghost use Rattle.mq_ir.specs.declared.catalog.View.{View as Seen};
ghost use Rattle.mq_ir.specs.declared.query.ModelPart.{ModelPart as PartSeen};
ghost use Rattle.mq_ir.specs.Explaining as spec;
ghost use Rattle.mq_ir.specs.NamedItems.{item_of};
ghost use Rattle.mq_ir.specs.Ready.{QueryIsReady};
ghost use Rattle.mq_ir.specs.Tables.{Tables as Standing};
ghost use Rattle.mq_kept.specs.Kept.{IsKept};
ghost use Rattle.mq_engine.specs.KeptViews.{AreStandingOf};

use crate::kept_views::KeptViews;
use mq_answers::{explained_kept, explained_over};
use mq_ir::{ByName, CellName, Explained, ModelPart, View};
use mq_kept::KeptView;
use mq_tables::Tables;
use mq_values::{Key, Memory};
use std::alloc::Global;

impl KeptViews {
    /// Where a measure of a cell of the view of this name comes from, whose query has this model, in the partition with this key: by
    /// what is kept of the view, where that is so over these tables, else by the tables. `Memory` is the only error.
    pub fn explained(
        &self,
        alloc: Global,
        tables: &Tables,
        views: &ByName<View>,
        name: &str,
        view: &View,
        part: &ModelPart,
        key: &Key,
        cell: &CellName,
    ) -> Result<Explained, Memory>
        requires named { item_of (λ (view : Seen). view.name) views.now name.now ≡ Some view.now }
        requires model { view.now.query.model ≡ Some part.now }
        requires ready { QueryIsReady view.now.query }
        requires standing { AreStandingOf tables.now views.now self.now.views.entries }
        ensures { IfOk result (λ e. e ≡ spec.explained_over tables.now view.now.query part.now key.now cell.now) }
    {
        match self.fresh(name) {
            Some(kept) => explained_kept(alloc, part, kept, key, cell),
            None => explained_over(alloc, tables, &view.query, part, key, cell),
        }
    }

    // What is kept of the view of this name, where that is what its query reads of the tables as they stand.
    fn fresh(&self, name: &str) -> Option<&KeptView>
        ensures { (tables : Standing) (views : List Seen) → AreStandingOf tables views self.now.views.entries
            → (v : Seen) → item_of (λ (view : Seen). view.name) views name.now ≡ Some v
            → (part : PartSeen) → v.query.model ≡ Some part → IfSome (option_copied result) (IsKept tables v.query part) }
    {
        let standing = self.views.get(name)?;
        if standing.fresh {
            Some(&standing.view)
        } else {
            None
        }
    }
}
