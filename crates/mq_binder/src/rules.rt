//! The rules of a model: each its measure, its left side, its ORDER BY and its right side
//! (docs/LANGUAGE.md, "The order of binding").

ghost use Rattle.std.specs.Prelude.{◌≡◌};
ghost use Rattle.mq_values.specs.Answers.{Gives};
ghost use Rattle.mq_ir.specs.Results.{each};
ghost use Rattle.mq_binder.specs.RuleWalk as spec;

use crate::found::LeftFound;
use crate::left_sides::{dimension_called, left_bound};
use mq_ast::{OrderKey, RuleTree};
use mq_bind_expr::{Held, bound};
use mq_bind_scopes::{
    ExprKind, MISUSE_OF_ORDER, Part, Scope, called, is_assignable, is_order_misused, mismatch,
    misuse, standing,
};
use mq_ir::{Catalog, Left, PlainPart, Rule};
use mq_lexer::folded;
use mq_values::{Fail, Items, Memory, Mode, Refused};
use std::alloc::Global;

// A key of ORDER BY on a left side is a dimension.
fn left_key(alloc: Global, scope: &Scope, key: &OrderKey) -> Result<(u32, bool), Fail<Refused>>
    ensures { Gives result (spec.left_key scope.now key.now) }
{
    match dimension_called(alloc, scope, &key.name)? {
        Some(n) => Ok((n, key.desc)),
        None => Err(misuse(MISUSE_OF_ORDER)),
    }
}

fn left_keys(
    alloc: Global,
    scope: &Scope,
    keys: &[OrderKey],
) -> Result<Items<(u32, bool)>, Fail<Refused>>
    ensures { Gives result (each (spec.left_key scope.now) keys.now) }
{
    let mut order = Items::new(alloc);
    'keys: for key in keys {
        order.push(left_key(alloc, scope, key)?)?;
    }
    Ok(order)
}

// ORDER BY wants a symbolic item, and no AUTOMATIC ORDER.
fn left_order(
    alloc: Global,
    scope: &Scope,
    auto: bool,
    left: &Left,
    keys: &[OrderKey],
) -> Result<Items<(u32, bool)>, Fail<Refused>>
    ensures { Gives result (spec.left_order scope.now auto left.now keys.now) }
{
    match keys {
        [] => Ok(Items::new(alloc)),
        [_, ..] => {
            if is_order_misused(auto, left) {
                return Err(misuse(MISUSE_OF_ORDER));
            }
            left_keys(alloc, scope, keys)
        }
    }
}

// The value goes into the measure.
fn right_bound(
    alloc: Global,
    scope: &Scope,
    measure: ExprKind,
    r: &RuleTree,
) -> Result<Held, Fail<Refused>>
    ensures { Gives result (spec.right_bound scope.now measure r.now) }
{
    let found = bound(alloc, scope, standing(Part::Right), &r.right)?;
    if !is_assignable(measure, found.get().kind) {
        return Err(mismatch());
    }
    Ok(found)
}

fn rule_of(
    mode: Mode,
    r: &RuleTree,
    measure: u32,
    left: Left,
    order: Items<(u32, bool)>,
    right: Held,
) -> Rule
    ensures { result ≡ spec.rule_of mode r.now measure left order right }
{
    Rule {
        mode: r.mode.unwrap_or(mode),
        measure,
        left,
        order,
        right: right.into_inner().e,
    }
}

// ORDER BY and the right side, behind the measure and the left side.
fn rule_behind(
    alloc: Global,
    scope: &Scope,
    mode: Mode,
    auto: bool,
    r: &RuleTree,
    measure: (u32, ExprKind),
    found: LeftFound,
) -> Result<(Rule, Items<PlainPart>), Fail<Refused>>
    ensures { Gives result (spec.rule_behind scope.now mode auto r.now measure found) }
{
    let order = left_order(alloc, scope, auto, &found.left, r.order.as_slice())?;
    let right = right_bound(alloc, scope, measure.1, r)?;
    Ok((
        rule_of(mode, r, measure.0, found.left, order, right),
        found.lists,
    ))
}

fn rule_bound(
    alloc: Global,
    catalog: &Catalog,
    scope: &Scope,
    mode: Mode,
    auto: bool,
    lists: Items<PlainPart>,
    r: &RuleTree,
) -> Result<(Rule, Items<PlainPart>), Fail<Refused>>
    ensures { Gives result (spec.rule_bound catalog.now scope.now mode auto lists r.now) }
{
    let name = folded(alloc, r.measure.as_str())?;
    let measure = called(scope.model.measures.as_slice(), name)?;
    let found = left_bound(alloc, catalog, scope, lists, &r.left)?;
    rule_behind(alloc, scope, mode, auto, r, measure, found)
}

/// The rules in order, with the subqueries of their FORs in the order of the text. `mode` is that of a rule that names
/// none, `auto` says that their order is AUTOMATIC.
pub fn rules_bound(
    alloc: Global,
    catalog: &Catalog,
    scope: &Scope,
    mode: Mode,
    auto: bool,
    rules: &[RuleTree],
) -> Result<(Items<Rule>, Items<PlainPart>), Fail<Refused>>
    ensures { Gives result (spec.rules_bound catalog.now scope.now mode auto rules.now) }
{
    let mut bound_rules = Items::new(alloc);
    let mut gathered = Items::new(alloc);
    'rules: for r in rules {
        let (rule, after) = rule_bound(alloc, catalog, scope, mode, auto, gathered, r)?;
        bound_rules.push(rule)?;
        gathered = after;
    }
    Ok((bound_rules, gathered))
}
