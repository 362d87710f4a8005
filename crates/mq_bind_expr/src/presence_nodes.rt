//! PRESENTV and PRESENTNNV, from what their arguments are bound to (docs/LANGUAGE.md, "Misuses").

ghost use Rattle.std.specs.Prelude.{◌≡◌, ◌∷◌, [], slice_get, Some};
ghost use Rattle.mq_values.specs.Answers.{Gives};
ghost use Rattle.mq_bind_expr.specs.Following.{Follows};
ghost use Rattle.mq_bind_expr.specs.PresenceForms as forms;
ghost use Rattle.mq_bind_expr.specs.RuleNodes as spec;

use crate::founds::{Held, Operands, converted_of, go_together, on_heap};
use crate::rule_nodes::single_cell;
use crate::threes::as_three;
use crate::values::a_value;
use mq_bind_scopes::{
    ExprKind, Found, MISUSE_OF_REFERENCE_MEASURE, MISUSE_OF_RULE_FORM, Position, cell_out_of_place,
    mismatch, misuse, outside_rules,
};
use mq_ir::{Expr, Leaf};
use mq_values::{Boxed, Fail, Items, Refused};
use std::alloc::Global;

// The kind of the two results, and whether the form may stand here.
fn presence_kind(at: Position, a: ExprKind, b: ExprKind) -> Result<ExprKind, Fail<Refused>>
    ensures { Gives result (spec.presence_kind at a b) }
{
    if outside_rules(at) {
        return Err(misuse(MISUSE_OF_RULE_FORM));
    }
    let kind = go_together(a, b)?;
    if cell_out_of_place(at) {
        return Err(misuse(MISUSE_OF_RULE_FORM));
    }
    Ok(kind)
}

fn presentv_of(indices: Items<Expr>, yes: Boxed<Expr>, no: Boxed<Expr>) -> Expr
    ensures { result ≡ spec.presentv_of indices yes no }
{
    Expr::PresentV {
        present: Leaf::Present(indices),
        yes,
        no,
    }
}

/// Another number of arguments than three.
pub fn other_presence(at: Position) -> Result<Found, Fail<Refused>>
    ensures { Gives result (spec.other_presence at) }
{
    if outside_rules(at) {
        return Err(misuse(MISUSE_OF_RULE_FORM));
    }
    Err(mismatch())
}

// PRESENTV of a cell, the result where it is present, and the other one.
fn presentv(
    alloc: Global,
    at: Position,
    cell: Held,
    a: Held,
    b: Held,
) -> Result<Found, Fail<Refused>>
    ensures { Gives result (spec.presentv_node at (cell ∷ a ∷ b ∷ [])) }
{
    let kind = presence_kind(at, a.get().kind, b.get().kind)?;
    let (_, indices) = single_cell(cell.into_inner().e)?;
    let yes = converted_of(alloc, kind, a)?;
    let no = converted_of(alloc, kind, b)?;
    Ok(a_value(presentv_of(indices, yes, no), kind))
}

#[tactic(auto, using(crate::proofs::PresenceLemmas::other_presentv))]
fn presentv_over(alloc: Global, at: Position, found: Items<Found>) -> Result<Found, Fail<Refused>>
    ensures { Gives result (spec.presentv_node at found) }
{
    match as_three(on_heap(alloc, found)?) {
        Some(parts) => presentv(alloc, at, parts.first, parts.second, parts.third),
        None => other_presence(at),
    }
}

/// PRESENTV.
pub fn presentv_node(alloc: Global, at: Position, found: Operands) -> Result<Found, Fail<Refused>>
    ensures { Follows found (spec.presentv_node at) result }
{
    presentv_over(alloc, at, found?)
}

fn leaf_measure(l: &Leaf) -> Result<u32, Fail<Refused>>
    ensures { Gives result (forms.leaf_measure l.now) }
{
    match l {
        Leaf::Cell(measure, _) => Ok(*measure),
        Leaf::RefCell(_, _, _) => Err(misuse(MISUSE_OF_REFERENCE_MEASURE)),
        _ => Err(misuse(MISUSE_OF_RULE_FORM)),
    }
}

// The measure of a single cell of the main model.
fn cell_measure(e: &Expr) -> Result<u32, Fail<Refused>>
    ensures { Gives result (forms.cell_measure e.now) }
{
    match e {
        Expr::Leaf(l) => leaf_measure(l),
        _ => Err(misuse(MISUSE_OF_RULE_FORM)),
    }
}

/// The kind of PRESENTNNV with these arguments, and the measure of its cell.
pub fn presence_asked(at: Position, found: &[Found]) -> Result<(ExprKind, u32), Fail<Refused>>
    ensures { Gives result (forms.presence_asked at found.now) }
{
    match found {
        [cell, a, b] => {
            let kind = presence_kind(at, a.kind, b.kind)?;
            let measure = cell_measure(&cell.e)?;
            Ok((kind, measure))
        }
        _ => {
            if outside_rules(at) {
                return Err(misuse(MISUSE_OF_RULE_FORM));
            }
            Err(mismatch())
        }
    }
}

fn presentnnv_of(
    measure: u32,
    indices: Items<Expr>,
    same: Items<Expr>,
    yes: Boxed<Expr>,
    no: Boxed<Expr>,
) -> Expr
    ensures { same ≡ indices → result ≡ spec.presentnnv_of measure indices yes no }
{
    Expr::PresentNnv {
        present: Leaf::Present(indices),
        not_null: Leaf::NotNull(measure, same),
        yes,
        no,
    }
}

// PRESENTNNV of a cell, found twice, the result where it is present and not null, and the other one.
fn presentnnv(
    alloc: Global,
    at: Position,
    cell: Held,
    again: Held,
    a: Held,
    b: Held,
) -> Result<Found, Fail<Refused>>
    ensures { again ≡ cell → Gives result (spec.presentnnv_node at (cell ∷ a ∷ b ∷ [])) }
{
    let kind = presence_kind(at, a.get().kind, b.get().kind)?;
    let (measure, indices) = single_cell(cell.into_inner().e)?;
    let (_, same) = single_cell(again.into_inner().e)?;
    let yes = converted_of(alloc, kind, a)?;
    let no = converted_of(alloc, kind, b)?;
    Ok(a_value(presentnnv_of(measure, indices, same, yes, no), kind))
}

/// PRESENTNNV. `again` is what its cell is bound to once more, since the bound form names the indices twice.
#[tactic(auto, using(crate::proofs::PresenceLemmas::other_presentnnv))]
pub fn presentnnv_node(
    alloc: Global,
    at: Position,
    found: Items<Found>,
    again: Held,
) -> Result<Found, Fail<Refused>>
    ensures { slice_get found 0 ≡ Some again → Gives result (spec.presentnnv_node at found) }
{
    match as_three(on_heap(alloc, found)?) {
        Some(parts) => presentnnv(alloc, at, parts.first, again, parts.second, parts.third),
        None => other_presence(at),
    }
}
