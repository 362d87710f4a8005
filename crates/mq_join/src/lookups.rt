//! Equalities by which the rows of a FROM item are looked up.
ghost use Rattle.std.specs.Prelude.{◌≡◌};
ghost use Rattle.std.specs.Option.{IfSome};
ghost use Rattle.mq_join.specs.Deciding.{Equates, LooksUp, Serves, equality};

use crate::deciders::Decider;
use mq_ir::{ColRef, Expr, Leaf};
use mq_values::CmpOp;

/// An equality of a plain column of an earlier FROM item and the column `own` of this one, and whether it decides also
/// where it is unknown.
#[derive(Drop)]
pub struct Lookup {
    pub item: usize,
    pub column: usize,
    pub own: usize,
    pub safe: bool,
}

/// The first equality that serves the FROM item of number `level`.
#[tactic(auto, using(crate::proofs::DeciderLemmas::decider_steps))]
pub fn lookup_for(deciders: &[Decider<'_>], level: usize) -> Option<Lookup>
    ensures { IfSome result (λ l. Serves deciders.now level l) }
{
    'deciders: for d in deciders {
        if let Some(lookup) = lookup_of(d.e, d.safe, level) {
            return Some(lookup);
        }
    }
    None
}

#[tactic(auto, using(crate::proofs::DeciderLemmas::decider_steps))]
fn lookup_of(e: &Expr, safe: bool, level: usize) -> Option<Lookup>
    ensures is { IfSome result (λ l. Equates e.now level l) }
    ensures safe { IfSome result (λ l. l.safe ≡ safe) }
{
    let (a, b) = sides_of(e)?;
    match looked_up(a, b, level, safe) {
        Some(lookup) => Some(lookup),
        None => looked_up(b, a, level, safe),
    }
}

// The two columns of an equality.
fn sides_of(e: &Expr) -> Option<(ColRef, ColRef)>
    ensures { IfSome result (λ sides. e.now ≡ equality sides.0 sides.1) }
{
    match e {
        Expr::Cmp(a, CmpOp::Eq, b) => {
            let a = column_of(a.get())?;
            let b = column_of(b.get())?;
            Some((a, b))
        }
        _ => None,
    }
}

fn column_of(e: &Expr) -> Option<ColRef>
    ensures { IfSome result (λ col. e.now ≡ Expr.Leaf (Leaf.Column col.item col.column)) }
{
    match e {
        Expr::Leaf(Leaf::Column(item, column)) => Some(ColRef {
            item: *item,
            column: *column,
        }),
        _ => None,
    }
}

// The column `b`, where it is one of the item `level`, is looked up by `a`, where that is one of an earlier item.
fn looked_up(a: ColRef, b: ColRef, level: usize, safe: bool) -> Option<Lookup>
    ensures { IfSome result (λ l. LooksUp a b level safe l) }
{
    if b.item as usize != level {
        return None;
    }
    if a.item as usize >= level {
        return None;
    }
    Some(Lookup {
        item: a.item as usize,
        column: a.column as usize,
        own: b.column as usize,
        safe,
    })
}
