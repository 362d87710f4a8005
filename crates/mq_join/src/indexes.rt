//! The index of a column of a FROM item.
ghost use Rattle.std.specs.Prelude.{◌≡◌, IsTrue, IfOk, length, slice_index_or};
ghost use Rattle.std.specs.BTreeMap.{get};
ghost use Rattle.mq_join.specs.Indexed.{AllKeys, IsIndexed, may_pass};
ghost use Rattle.mq_join.specs.JoinKeys.{cmp_joined, is_date, is_number, is_text};

use crate::from_items::ItemRows;
use crate::join_keys::JoinKey;
use crate::lookups::Lookup;
use mq_values::Memory;
use std::alloc::Global;
use std::collections::BTreeMap;

/// For each value of a column its first row, and for each row the next one with its value. `numbers`, `texts` and
/// `dates` say whether all values are of that sort, so that an equality with another one is never unknown.
#[derive(Drop)]
pub struct Index<'a> {
    pub lookup: Lookup,
    pub numbers: bool,
    pub texts: bool,
    pub dates: bool,
    pub heads: BTreeMap<JoinKey<'a>, usize>,
    pub next: Vec<Option<usize>>,
}

impl<'a> Index<'a> {
    /// The first row that has this value.
    pub fn first(&self, key: &JoinKey<'a>) -> Option<usize>
        ensures { result ≡ get cmp_joined self.now.heads key.now }
    {
        self.heads.get(key).copied()
    }

    /// The next row that has the value of the row of this place.
    pub fn behind(&self, place: usize) -> Option<usize>
        ensures { result ≡ slice_index_or self.now.next.items place None }
    {
        match self.next.get(place) {
            Some(next) => *next,
            None => None,
        }
    }

    /// Whether the rows that have not this value may be passed over.
    pub fn passes(&self, key: &JoinKey<'a>) -> bool
        ensures { result ≡ may_pass self.now key.now }
    {
        if self.lookup.safe {
            return true;
        }
        if key.is_number() {
            return self.numbers;
        }
        if key.is_text() {
            return self.texts;
        }
        if key.is_date() {
            return self.dates;
        }
        false
    }
}

/// The index of the column that is looked up, over the rows of its item. `Memory` is the only error.
#[tactic(auto, using(crate::proofs::IndexLemmas::index_steps))]
pub fn index_of<'a>(alloc: Global, lookup: Lookup, rows: &ItemRows<'a>) -> Result<Index<'a>, Memory>
    ensures lookup { IfOk result (λ x. x.lookup ≡ lookup) }
    ensures indexed { IfOk result (λ x. IsIndexed rows.now x) }
{
    let column = lookup.own;
    let mut heads = BTreeMap::new(alloc);
    let mut next = nones(alloc, rows.len())?;
    let mut place = rows.len();
    'rows: while place > 0 {
        place -= 1;
        next[place] = heads.insert(JoinKey::new(rows.row(place), column), place)?;
    }
    Ok(Index {
        lookup,
        numbers: all_numbers(rows, column),
        texts: all_texts(rows, column),
        dates: all_dates(rows, column),
        heads,
        next,
    })
}

// So many times no place.
fn nones(alloc: Global, count: usize) -> Result<Vec<Option<usize>>, Memory>
    ensures { IfOk result (λ nones. length nones.items ≡ count) }
{
    Ok(vec![in alloc; None; count]?)
}

#[tactic(auto, using(crate::proofs::IndexLemmas::index_steps))]
fn all_numbers(rows: &ItemRows<'_>, column: usize) -> bool
    ensures { IsTrue result → AllKeys is_number rows.now column }
{
    'rows: for place in 0..rows.len() {
        if !JoinKey::new(rows.row(place), column).is_number() {
            return false;
        }
    }
    true
}

#[tactic(auto, using(crate::proofs::IndexLemmas::index_steps))]
fn all_texts(rows: &ItemRows<'_>, column: usize) -> bool
    ensures { IsTrue result → AllKeys is_text rows.now column }
{
    'rows: for place in 0..rows.len() {
        if !JoinKey::new(rows.row(place), column).is_text() {
            return false;
        }
    }
    true
}

#[tactic(auto, using(crate::proofs::IndexLemmas::index_steps))]
fn all_dates(rows: &ItemRows<'_>, column: usize) -> bool
    ensures { IsTrue result → AllKeys is_date rows.now column }
{
    'rows: for place in 0..rows.len() {
        if !JoinKey::new(rows.row(place), column).is_date() {
            return false;
        }
    }
    true
}
