//! Expressions that never fault, and how many FROM items they see.
ghost use Rattle.std.specs.Prelude.{IsTrue};
ghost use Rattle.std.specs.Option.{IfSome};
ghost use Rattle.mq_join.specs.Deciding.{AllSeeBelow, SeesBelow};

use mq_ir::{Expr, Leaf};

/// Whether an expression is made of columns of the first `count` FROM items, literals and conditions over these alone.
/// Such a one never faults.
#[cycle(sight)]
#[tactic(auto, using(crate::proofs::SightLemmas::sight))]
pub fn sees_below(e: &Expr, count: usize) -> bool
    ensures { IsTrue result → SeesBelow count e.now }
{
    match e {
        Expr::Lit(_) => true,
        Expr::Leaf(leaf) => leaf_sees_below(leaf, count),
        Expr::Not(x) => sees_below(x.get(), count),
        Expr::IsNull(x, _) => sees_below(x.get(), count),
        Expr::Cmp(a, _, b) => {
            if sees_below(a.get(), count) {
                sees_below(b.get(), count)
            } else {
                false
            }
        }
        Expr::Between(x, _, low, high) => {
            if !sees_below(x.get(), count) {
                return false;
            }
            if sees_below(low.get(), count) {
                sees_below(high.get(), count)
            } else {
                false
            }
        }
        Expr::InList(x, _, members) => {
            if sees_below(x.get(), count) {
                all_see_below(members.as_slice(), count)
            } else {
                false
            }
        }
        Expr::And(es) => all_see_below(es.as_slice(), count),
        Expr::Or(es) => all_see_below(es.as_slice(), count),
        _ => false,
    }
}

// Of the leaves columns alone.
fn leaf_sees_below(leaf: &Leaf, count: usize) -> bool
    ensures { IsTrue result → SeesBelow count (Expr.Leaf leaf.now) }
{
    match leaf {
        Leaf::Column(item, _) => (*item as usize) < count,
        _ => false,
    }
}

/// Whether all of these are so.
#[cycle(sight)]
pub fn all_see_below(es: &[Expr], count: usize) -> bool
    ensures { IsTrue result → AllSeeBelow count es.now }
{
    'expressions: for e in es {
        if !sees_below(e, count) {
            return false;
        }
    }
    true
}

/// The smallest number of FROM items, smaller than `count`, that an expression sees, if it never faults.
pub fn sight_of(e: &Expr, count: usize) -> Option<usize>
    ensures { IfSome result (λ n. SeesBelow n e.now) }
{
    'counts: for n in 1..count {
        if sees_below(e, n) {
            return Some(n);
        }
    }
    None
}
