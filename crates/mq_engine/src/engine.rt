//! The calls of a session.
ghost use Rattle.std.specs.Prelude.{◌≡◌, ◌≤◌, ◌∷◌, [], Some, None, false, map, IfOk, OnOk, OnErr, IsErrOf};
ghost use Rattle.mq_values.specs.Answers.{Gives, result_map};
ghost use Rattle.mq_ir.specs.Answer.{answer_of};
ghost use Rattle.mq_ir.specs.Lines.{Counted, Done};
ghost use Rattle.mq_ir.specs.Names.{is_view};
ghost use Rattle.mq_ir.specs.Statement as spec;
ghost use Rattle.mq_ir.specs.Statement.{Block};
ghost use Rattle.mq_ir.specs.Tables.{table_at};
ghost use Rattle.mq_engine.specs.Catalogs.{catalog_of, entry_of_table};
ghost use Rattle.mq_ir.specs.Ready.{QueryIsReady};
ghost use Rattle.mq_answers.specs.declared.workers.TheConstants.{MAX_WORKERS};
ghost use Rattle.mq_engine.specs.Sessions.{nothing, view_answer, view_explained, no_view as none_called};

use crate::catalogs::table_entry;
use crate::kept_views::KeptViews;
use crate::open_block::OpenBlock;
use crate::uses::user_of;
use crate::views::NoView;
use mq_answers::{Crew, Workers, answer_over};
use mq_io::Gate;
use mq_ir::{Answer, BoundQuery, ByName, Catalog, CellName, Change, Explained, TableDef, View};
use mq_tables::{Tables, table_of};
use mq_values::{Fail, Key, Memory, Refused, Words};
use std::alloc::Global;
use std::marker::Model;
use std::thread::Threads;

/// The tables, views and scenarios of a session, its block, and what is kept of its views. Contracts see it as the `State` of mq_ir's
/// `specs/Statement`: the tables with their rows, the views with their queries and the scenarios with their changes, each in
/// order of creation, and the block where one is there. Of what is kept they see nothing.
#[derive(Drop)]
pub struct Engine {
    pub(crate) tables: Tables,
    pub(crate) catalog: Catalog,
    pub(crate) block: Option<OpenBlock>,
    pub(crate) kept: KeptViews,
    // Where scenarios are kept.
    pub(crate) alloc: Global,
    workers: Workers,
}

impl Model for Engine {
    ghost use Rattle.std.specs.Prelude.{◌≡◌, map};
    ghost use Rattle.std.specs.Coded.{codes};
    ghost use Rattle.std.specs.List.{All};
    ghost use Rattle.mq_ir.specs.contracts.expression.Expr as expr;
    ghost use Rattle.mq_ir.specs.contracts.expression.Test as test;
    ghost use Rattle.mq_ir.specs.Ready.{QueryIsReady};
    ghost use Rattle.mq_ir.specs.Statement.{State};
    ghost use Rattle.mq_engine.specs.Blocks.{state_over};
    ghost use Rattle.mq_engine.specs.Catalogs.{entry_of_table};
    ghost use Rattle.mq_engine.specs.KeptViews.{AreStandingOf};
    ghost use Rattle.mq_engine.specs.Scenarios.{MayStand};

    ghost Value = { State };

    ghost coded = { Prim.hlevel (codes, expr.the_row.coded, test.the_row.coded) };

    ghost view = { λ e. state_over e.tables e.catalog e.block };

    ghost invariant = { λ e. (e.catalog.tables ≡ map entry_of_table e.tables)
        × All (λ v. QueryIsReady v.query) e.catalog.views
        × MayStand e.catalog.scenarios
        × AreStandingOf e.tables e.catalog.views e.kept.views.entries };
}

impl Engine {
    /// No table, no view, no scenario and no block, and so many workers, whose number no answer tells. It takes no memory.
    pub fn new(alloc: Global, workers: u32) -> Engine
        requires { (1 ≤ workers) × (workers ≤ MAX_WORKERS) }
        ensures { result ≡ nothing }
    {
        Engine {
            tables: Tables::new(alloc),
            catalog: Catalog {
                tables: ByName::new(alloc),
                views: ByName::new(alloc),
                scenarios: ByName::new(alloc),
            },
            block: None,
            kept: KeptViews::new(alloc),
            alloc,
            workers: Workers::new(workers),
        }
    }

    // Who works out its answers.
    pub(crate) fn crew<'r, 'g, R, G>(&self, rt: &'r R, gate: &'g G) -> Crew<'r, 'g, R, G> {
        Crew {
            rt,
            workers: self.workers,
            gate,
        }
    }

    /// The names under which statements are bound, with what they stand for. The tables of a block have the same.
    pub fn catalog(&self) -> &Catalog
        ensures there { result.now ≡ catalog_of self.now }
        ensures pending { (block : Block) → self.now.block ≡ Some block → map entry_of_table block.pending ≡ result.now.tables }
    {
        &self.catalog
    }

    /// Adds a table whose name no other has, where no block is there: it is the last, and has no rows. After `Memory` nothing is
    /// changed.
    pub fn create_table(&mut self, alloc: Global, t: TableDef) -> Result<(), Memory>
        requires new { table_at self.old.tables t.name ≡ None }
        requires outside { self.old.block ≡ None }
        ensures ok { OnOk result (self.new ≡ spec.create_table self.old t) }
        ensures err { OnErr result (self.new ≡ self.old) }
    {
        let name = t.name.copy()?;
        let entry = table_entry(alloc, t.name.copy()?, &t.schema)?;
        self.kept.pass_over();
        self.tables.add(t)?;
        match self.catalog.tables.put(entry) {
            Ok(()) => Ok(()),
            Err(wanted) => {
                self.tables.remove(name.as_str());
                Err(wanted)
            }
        }
    }

    /// Adds a view whose name no other has, and whose query is ready (mq_ir's `specs/Ready`): it is the last. A fault of its query
    /// is no reason to refuse it, but its answer. After `Memory` nothing is changed.
    pub fn create_view<G: Gate>(
        &mut self,
        alloc: Global,
        name: &str,
        q: BoundQuery,
        _gate: &G,
    ) -> Result<(), Memory>
        requires named { is_view (catalog_of self.old) name.now ≡ false }
        requires ready { QueryIsReady q }
        ensures ok { OnOk result (self.new ≡ spec.create_view self.old name.now q) }
        ensures err { OnErr result (self.new ≡ self.old) }
    {
        let own_name = Words::new(alloc, name)?;
        let_go(self.kept.take(name));
        self.catalog.views.put(View {
            name: own_name,
            query: q,
        })
    }

    /// Drops the table of this name, where no block is there, or refuses it with the first view that reads it, or else with
    /// the first scenario that changes it; then nothing is changed. `Memory` comes only there, for the name of that view or
    /// scenario.
    pub fn drop_table(&mut self, name: &str) -> Result<(), Fail<Refused>>
        requires { self.old.block ≡ None }
        ensures exact { Gives (result_map (λ _. (self.new, Done ∷ [])) result) (spec.drop_table self.old name.now) }
        ensures err { OnErr result (self.new ≡ self.old) }
        ensures memory { spec.use_of self.old name.now ≡ None → ¬ IsErrOf result Fail.Memory }
    {
        if let Some(user) = user_of(&self.catalog, name) {
            return Err(Fail::Cause(Refused::InUse(user.copy()?)));
        }
        self.kept.pass_over();
        self.tables.remove(name);
        self.catalog.tables.remove(name);
        Ok(())
    }

    /// Drops the view of this name. It takes no memory.
    pub fn drop_view(&mut self, name: &str)
        ensures { self.new ≡ spec.drop_view self.old name.now }
    {
        let_go(self.kept.take(name));
        self.catalog.views.remove(name);
    }

    /// Changes the rows of a table, where no block is there, and answers how many rows are counted; or refuses the change, and
    /// then nothing is changed (docs/MEANING.md, "Changes"). What is kept of views follows; want of memory there drops it, and never
    /// refuses the change.
    pub fn apply<G: Gate>(
        &mut self,
        alloc: Global,
        c: &Change,
        _gate: &G,
    ) -> Result<u64, Fail<Refused>>
        requires { self.old.block ≡ None }
        ensures exact { Gives (result_map (λ count. (self.new, Counted count ∷ [])) result) (spec.change_step self.old c.now) }
        ensures err { OnErr result (self.new ≡ self.old) }
    {
        let touched = self.tables.change(alloc, c)?;
        let table = table_of(c).as_str();
        self.kept
            .follow(alloc, &self.tables, &self.catalog.views, table, &touched);
        Ok(touched.count() as u64)
    }

    /// What the view of this name answers over the tables as they stand: its rows as they are printed, or its first fault.
    /// `NoView` comes exactly where no such view is (docs/MEANING.md, "Answers").
    pub fn answer<R: Threads + Sync, G: Gate>(
        &mut self,
        rt: &R,
        alloc: Global,
        view: &str,
        gate: &G,
    ) -> Result<Answer, Fail<NoView>>
        ensures exact { Gives result (view_answer self.old view.now) }
        ensures same { self.new ≡ self.old }
    {
        let crew = self.crew(rt, gate);
        match self.catalog.views.get(view) {
            Some(found) => Ok(
                self.kept.answer_of(&crew, alloc, &self.tables, &self.catalog.views, view, found)?,
            ),
            None => Err(Fail::Cause(NoView {
                name: Words::new(alloc, view)?,
            })),
        }
    }

    /// How many partitions of the view of this name are kept: in automatic order those that have their shape and their store, in
    /// sequential order those that have their result; 0 where there is no such view, or where it has no MODEL. It takes no memory.
    pub fn kept(&self, view: &str) -> u32 {
        match self.catalog.views.get(view) {
            Some(found) => self.kept.count(view, is_automatic(&found.query)),
            None => 0,
        }
    }

    /// How many slots were read of the stores of kept partitions so far, since they are kept, up to 2^64 - 1. No call lowers it. It
    /// takes no memory.
    pub fn reads(&self) -> u64 {
        self.kept.reads()
    }

    /// What a query that is ready (mq_ir's `specs/Ready`) answers over the tables as they stand (docs/MEANING.md, "Answers").
    /// `Memory` is the only error.
    pub fn query<R: Threads + Sync, G: Gate>(
        &self,
        rt: &R,
        alloc: Global,
        q: &BoundQuery,
        gate: &G,
    ) -> Result<Answer, Memory>
        requires { QueryIsReady q.now }
        ensures { IfOk result (λ a. a ≡ answer_of self.now.tables q.now) }
    {
        answer_over(&self.crew(rt, gate), alloc, &self.tables, q)
    }

    /// Where a measure of a cell of the view of this name comes from, in the partition with this key: its steps, which `check` of
    /// mq_lineage has accepted; or the fault for which there are none, or that the partition or the cell is not there
    /// (docs/MEANING.md, "Explaining a cell"). `NoView` comes exactly where there is no such view with MODEL.
    pub fn explain<G: Gate>(
        &self,
        alloc: Global,
        view: &str,
        part: &Key,
        cell: &CellName,
        _gate: &G,
    ) -> Result<Explained, Fail<NoView>>
        ensures { Gives result (view_explained self.now view.now part.now cell.now) }
    {
        match self.catalog.views.get(view) {
            Some(found) => match &found.query.model {
                Some(model) => Ok(
                    self.kept.explained(
                        alloc,
                        &self.tables,
                        &self.catalog.views,
                        view,
                        found,
                        model,
                        part,
                        cell,
                    )?,
                ),
                None => Err(no_view(alloc, view)?),
            },
            None => Err(no_view(alloc, view)?),
        }
    }
}

// Whether a query has a model in automatic order.
fn is_automatic(query: &BoundQuery) -> bool {
    match &query.model {
        Some(part) => part.auto,
        None => false,
    }
}

// Lets what was kept go.
fn let_go<T: Drop>(_item: T) {}

fn no_view(alloc: Global, name: &str) -> Result<Fail<NoView>, Memory>
    ensures { IfOk result (λ fault. fault ≡ Fail.Cause (none_called name.now)) }
{
    let name = Words::new(alloc, name)?;
    Ok(Fail::Cause(NoView { name }))
}
