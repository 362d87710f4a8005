//! What is kept of the views of a session.
ghost use Rattle.std.specs.Prelude.{◌≡◌, ◌+◌, List, length, Some, None, Ok, IfOk, IfSome};
ghost use Rattle.std.specs.List.{All};
ghost use Rattle.std.specs.Map.{lookup};
ghost use Rattle.std.specs.Option.{option_copied};
ghost use Rattle.mq_ir.specs.declared.catalog.View.{View as Seen};
ghost use Rattle.mq_ir.specs.Answer.{answer_of};
ghost use Rattle.mq_ir.specs.NamedItems.{item_of};
ghost use Rattle.mq_ir.specs.Ready.{QueryIsReady};
ghost use Rattle.mq_ir.specs.Tables.{Tables as Standing};
ghost use Rattle.mq_engine.specs.KeptViews.{AreHalfway, AreStandingOf, IsRightAt, IsStandingOf, StoodAll, StoodAt, goes_by};

use indexmap::IndexMap;
use mq_answers::{Crew, answer_over, kept_answer};
use mq_io::Gate;
use mq_ir::{Answer, ByName, View};
use mq_kept::{StandingView, carried};
use mq_tables::{Tables, Touched};
use mq_values::Memory;
use std::alloc::Global;
use std::mem;
use std::thread::Threads;

/// What is kept of views, each by the name of its view: it is right for the model of that view, and where it is fresh it is what the
/// query of the view reads of the tables as they stand. Beside it stands how much was read of the stores of its partitions so far.
#[derive(Drop)]
pub struct KeptViews {
    pub views: IndexMap<String, StandingView>,
    reads: u64,
}

impl KeptViews {
    /// Nothing is kept. It takes no memory.
    pub fn new(alloc: Global) -> KeptViews
        ensures { (tables : Standing) (views : List Seen) → AreStandingOf tables views result.views.entries }
    {
        KeptViews {
            views: IndexMap::new(alloc),
            reads: 0,
        }
    }

    /// How many partitions are kept of the view of this name, in automatic order or not (`kept_count` of mq_kept).
    pub fn count(&self, name: &str, automatic: bool) -> u32 {
        match self.views.get(name) {
            Some(standing) => standing.view.kept_count(automatic),
            None => 0,
        }
    }

    /// How much was read so far of the stores of partitions that are kept.
    pub fn reads(&self) -> u64 {
        self.reads
    }

    /// What is kept of the view of this name, which stands where all does.
    pub fn get(&self, name: &str) -> Option<&StandingView>
        ensures { (tables : Standing) (views : List Seen) → AreStandingOf tables views self.now.views.entries
            → (v : Seen) → item_of (λ (view : Seen). view.name) views name.now ≡ Some v
            → IfSome (option_copied result) (IsStandingOf tables v) }
    {
        self.views.get(name)
    }

    /// Takes out what is kept of the view of this name, which stands where all does.
    pub fn take(&mut self, name: &str) -> Option<StandingView>
        ensures taken { (tables : Standing) (views : List Seen) → AreStandingOf tables views self.old.views.entries
            → (v : Seen) → item_of (λ (view : Seen). view.name) views name.now ≡ Some v → IfSome result (IsStandingOf tables v) }
        ensures left { (tables : Standing) (views : List Seen) → AreStandingOf tables views self.old.views.entries
            → AreStandingOf tables views self.new.views.entries }
        ensures gone { lookup (goes_by name.now) self.new.views.entries ≡ None }
    {
        self.views.shift_remove(name)
    }

    // Keeps this of the view of this name, where there is something to keep.
    fn put(&mut self, alloc: Global, name: &str, view: Option<StandingView>) -> Result<(), Memory>
        ensures { (tables : Standing) (views : List Seen) → AreStandingOf tables views self.old.views.entries
            → (v : Seen) → item_of (λ (view : Seen). view.name) views name.now ≡ Some v → IfSome view (IsStandingOf tables v)
            → AreStandingOf tables views self.new.views.entries }
    {
        let Some(view) = view else {
            return Ok(());
        };
        let name = String::from_str(alloc, name)?;
        self.views.insert(name, view)?;
        Ok(())
    }

    /// What the view of this name answers over these tables, by what is kept of it; what is kept afterwards stands again.
    /// `Memory` is the only error, and then nothing is kept of the view.
    pub fn answer_of<R: Threads + Sync, G: Gate>(
        &mut self,
        crew: &Crew<'_, '_, R, G>,
        alloc: Global,
        tables: &Tables,
        views: &ByName<View>,
        name: &str,
        view: &View,
    ) -> Result<Answer, Memory>
        requires named { item_of (λ (view : Seen). view.name) views.now name.now ≡ Some view.now }
        requires ready { QueryIsReady view.now.query }
        requires standing { AreStandingOf tables.now views.now self.old.views.entries }
        ensures exact { IfOk result (λ a. a ≡ answer_of tables.now view.now.query) }
        ensures standing { AreStandingOf tables.now views.now self.new.views.entries }
    {
        let query = &view.query;
        let Some(part) = &query.model else {
            return answer_over(crew, alloc, tables, query);
        };
        let old = self.take(name);
        let (now, answer) = kept_answer(crew, alloc, tables, query, part, old, &mut self.reads)?;
        behind(self.put(alloc, name, now), answer)
    }

    /// Lets what is kept follow a change of the table of this name: `tables` are the tables as they stand now, `touched` is what the
    /// change touched. What would want more memory than there is is kept no more, so it never fails.
    pub fn follow(
        &mut self,
        alloc: Global,
        tables: &Tables,
        views: &ByName<View>,
        table: &str,
        touched: &Touched,
    )
        requires ready { All (λ v. QueryIsReady v.query) views.now }
        requires stood { StoodAll touched.now table.now tables.now views.now self.old.views.entries }
        ensures { AreStandingOf tables.now views.now self.new.views.entries }
    {
        let mut old = mem::replace(&mut self.views, IndexMap::new(alloc));
        'views: while let Some((name, standing)) = old.pop() {
            let reads = &mut self.reads;
            let now = standing_after(alloc, tables, views, &name, standing, table, touched, reads);
            keep(&mut self.views, name, now);
        }
    }

    /// The tables changed, and it is not told how: what is kept is brought to them when its view is asked for. It takes no memory.
    pub fn pass_over(&mut self)
        ensures { (before now : Standing) (views : List Seen) → AreStandingOf before views self.old.views.entries
            → AreStandingOf now views self.new.views.entries }
    {
        let count = self.views.len();
        'views: for at in 0..count {
            pass_over_at(&mut self.views, at);
        }
    }
}

// What is kept at this place is no longer fresh.
fn pass_over_at(views: &mut IndexMap<String, StandingView>, at: usize)
    ensures halfway { (before now : Standing) (seen : List Seen) → AreHalfway before now seen at views.old.entries
        → AreHalfway before now seen (at + 1) views.new.entries }
    ensures as_many { length views.new.entries ≡ length views.old.entries }
{
    match views.get_index_mut(at) {
        Some(standing) => standing.fresh = false,
        None => {}
    }
}

// The answer, where what is kept was put.
fn behind(put: Result<(), Memory>, answer: Answer) -> Result<Answer, Memory>
    ensures { IfOk result (λ a. a ≡ answer) }
{
    match put {
        Ok(()) => Ok(answer),
        Err(wanted) => Err(wanted),
    }
}

// What is kept under a name after a change of a table, where there is a view with MODEL of that name, and memory for it.
fn standing_after(
    alloc: Global,
    tables: &Tables,
    views: &ByName<View>,
    name: &String,
    old: StandingView,
    table: &str,
    touched: &Touched,
    reads: &mut u64,
) -> Option<StandingView>
    requires ready { All (λ v. QueryIsReady v.query) views.now }
    requires stood { StoodAt touched.now table.now tables.now views.now (name.now, old) }
    ensures { IfSome result (λ now. IsRightAt (IsStandingOf tables.now) views.now (name.now, now)) }
{
    let view = views.get(name.as_str())?;
    let part = view.query.model.as_ref()?;
    kept_or_not(carried(alloc, tables, &view.query, part, table, touched, old, reads))
}

// What is kept, where there was memory for it.
fn kept_or_not(now: Result<StandingView, Memory>) -> Option<StandingView>
    ensures { IfSome result (λ standing. now ≡ Ok standing) }
{
    match now {
        Ok(standing) => Some(standing),
        Err(Memory) => None,
    }
}

// Keeps this under a name, where there is something to keep, and memory for it.
fn keep(views: &mut IndexMap<String, StandingView>, name: String, now: Option<StandingView>)
    ensures { (tables : Standing) (seen : List Seen) → AreStandingOf tables seen views.old.entries
        → IfSome now (λ now. IsRightAt (IsStandingOf tables) seen (name, now)) → AreStandingOf tables seen views.new.entries }
{
    match now {
        Some(now) => let_go(views.insert(name, now)),
        None => {}
    }
}

// Lets what was handed back go.
fn let_go<T: Drop>(_item: T) {}
