//! The looks of the references in an expression, from left to right, those of untaken branches included.
ghost use Rattle.std.specs.Prelude.{◌≡◌, ◌++◌, List, OnOk};
ghost use Rattle.std.specs.List.{flat_map};
ghost use Rattle.mq_ir.specs.declared.expression.Leaf.{Leaf as OneLeaf};
ghost use Rattle.mq_ir.specs.declared.query.Look.{Look as OneLook};
ghost use Rattle.mq_refs.specs.LookLists.{looks_by, looks_in_arm, looks_in_factor, looks_in_term, looks_where_any};

use mq_ir::{BoundArm, BoundProd, BoundSum, Expr, Leaf};
use mq_values::{Boxed, Memory};
use std::alloc::Global;

/// What is done with the leaves of an expression, one after another: what they look at is gathered.
pub trait LeafVisitor {
    /// What is gathered.
    type Found;

    /// The looks of a leaf, as far as they are gathered.
    ghost looks: { Self → OneLeaf → List OneLook };

    /// The looks that what was gathered stands for.
    ghost shown: { Self → Self.Found → List OneLook };

    /// What holds of all that was gathered.
    ghost is_sound: { Self → Self.Found → Type 0 };

    /// Puts the looks of a leaf behind those that were found before.
    fn visit(&self, alloc: Global, leaf: &Leaf, found: &mut Self::Found) -> Result<(), Memory>
        requires { is_sound self.now found.old }
        ensures shown { OnOk result (shown self.now found.new ≡ shown self.now found.old ++ looks self.now leaf.now) }
        ensures sound { OnOk result (is_sound self.now found.new) };
}

/// Puts the looks of `e` behind those that were found before.
#[cycle(walk)]
#[tactic(auto, using(crate::proofs::LookLaws::looks_laws))]
pub fn push_looks<V: LeafVisitor>(
    alloc: Global,
    visitor: &V,
    e: &Expr,
    found: &mut V::Found,
) -> Result<(), Memory>
    requires { V.is_sound visitor.now found.old }
    ensures shown { OnOk result (V.shown visitor.now found.new ≡ V.shown visitor.now found.old ++ looks_by (V.looks visitor.now) e.now) }
    ensures sound { OnOk result (V.is_sound visitor.now found.new) }
{
    match e {
        Expr::Or(es) | Expr::And(es) | Expr::Call(_, es) => {
            push_each(alloc, visitor, es.as_slice(), found)
        }
        Expr::Not(e) | Expr::IsNull(e, _) | Expr::Neg(e) | Expr::Cast(e, _) | Expr::Convert(e, _) =>
            push_looks(alloc, visitor, e.get(), found),
        Expr::Cmp(a, _, b) => {
            push_looks(alloc, visitor, a.get(), found)?;
            push_looks(alloc, visitor, b.get(), found)
        }
        Expr::Between(e, _, low, high) => {
            push_looks(alloc, visitor, e.get(), found)?;
            push_looks(alloc, visitor, low.get(), found)?;
            push_looks(alloc, visitor, high.get(), found)
        }
        Expr::InList(e, _, es) => {
            push_looks(alloc, visitor, e.get(), found)?;
            push_each(alloc, visitor, es.as_slice(), found)
        }
        Expr::IsPresent(leaf, _) | Expr::Leaf(leaf) => visitor.visit(alloc, leaf, found),
        Expr::Sum(first, terms) => {
            push_looks(alloc, visitor, first.get(), found)?;
            push_terms(alloc, visitor, terms.as_slice(), found)
        }
        Expr::Prod(first, factors) => {
            push_looks(alloc, visitor, first.get(), found)?;
            push_factors(alloc, visitor, factors.as_slice(), found)
        }
        Expr::Lit(_) => Ok(()),
        Expr::Case(subject, arms, otherwise) => {
            push_if_any(alloc, visitor, subject, found)?;
            push_arms(alloc, visitor, arms.as_slice(), found)?;
            push_if_any(alloc, visitor, otherwise, found)
        }
        Expr::PresentV { present, yes, no } => {
            visitor.visit(alloc, present, found)?;
            push_looks(alloc, visitor, yes.get(), found)?;
            push_looks(alloc, visitor, no.get(), found)
        }
        Expr::PresentNnv {
            present,
            not_null,
            yes,
            no,
        } => {
            visitor.visit(alloc, present, found)?;
            visitor.visit(alloc, not_null, found)?;
            push_looks(alloc, visitor, yes.get(), found)?;
            push_looks(alloc, visitor, no.get(), found)
        }
    }
}

// The looks of a part of CASE that may be left out.
#[cycle(walk)]
fn push_if_any<V: LeafVisitor>(
    alloc: Global,
    visitor: &V,
    e: &Option<Boxed<Expr>>,
    found: &mut V::Found,
) -> Result<(), Memory>
    requires { V.is_sound visitor.now found.old }
    ensures shown { OnOk result (V.shown visitor.now found.new
        ≡ V.shown visitor.now found.old ++ looks_where_any (V.looks visitor.now) e.now) }
    ensures sound { OnOk result (V.is_sound visitor.now found.new) }
{
    match e {
        Some(e) => push_looks(alloc, visitor, e.get(), found),
        None => Ok(()),
    }
}

#[cycle(walk)]
fn push_each<V: LeafVisitor>(
    alloc: Global,
    visitor: &V,
    es: &[Expr],
    found: &mut V::Found,
) -> Result<(), Memory>
    requires { V.is_sound visitor.now found.old }
    ensures shown { OnOk result (V.shown visitor.now found.new
        ≡ V.shown visitor.now found.old ++ flat_map (looks_by (V.looks visitor.now)) es.now) }
    ensures sound { OnOk result (V.is_sound visitor.now found.new) }
{
    for e in es {
        push_looks(alloc, visitor, e, found)?;
    }
    Ok(())
}

#[cycle(walk)]
fn push_terms<V: LeafVisitor>(
    alloc: Global,
    visitor: &V,
    terms: &[BoundSum],
    found: &mut V::Found,
) -> Result<(), Memory>
    requires { V.is_sound visitor.now found.old }
    ensures shown { OnOk result (V.shown visitor.now found.new
        ≡ V.shown visitor.now found.old ++ flat_map (looks_in_term (V.looks visitor.now)) terms.now) }
    ensures sound { OnOk result (V.is_sound visitor.now found.new) }
{
    for term in terms {
        push_looks(alloc, visitor, &term.e, found)?;
    }
    Ok(())
}

#[cycle(walk)]
fn push_factors<V: LeafVisitor>(
    alloc: Global,
    visitor: &V,
    factors: &[BoundProd],
    found: &mut V::Found,
) -> Result<(), Memory>
    requires { V.is_sound visitor.now found.old }
    ensures shown { OnOk result (V.shown visitor.now found.new
        ≡ V.shown visitor.now found.old ++ flat_map (looks_in_factor (V.looks visitor.now)) factors.now) }
    ensures sound { OnOk result (V.is_sound visitor.now found.new) }
{
    for factor in factors {
        push_looks(alloc, visitor, &factor.e, found)?;
    }
    Ok(())
}

#[cycle(walk)]
fn push_arms<V: LeafVisitor>(
    alloc: Global,
    visitor: &V,
    arms: &[BoundArm],
    found: &mut V::Found,
) -> Result<(), Memory>
    requires { V.is_sound visitor.now found.old }
    ensures shown { OnOk result (V.shown visitor.now found.new
        ≡ V.shown visitor.now found.old ++ flat_map (looks_in_arm (V.looks visitor.now)) arms.now) }
    ensures sound { OnOk result (V.is_sound visitor.now found.new) }
{
    for arm in arms {
        push_looks(alloc, visitor, &arm.test, found)?;
        push_looks(alloc, visitor, &arm.value, found)?;
    }
    Ok(())
}
