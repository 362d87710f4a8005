//! A name or a number alone, put right where it is to stand: most members of lists and terms of sums are so.

ghost use Rattle.std.specs.Prelude.{◌≡◌, ◌∷◌, ◌++◌, [], None, IfOk, OnOk};
ghost use Rattle.mq_values.specs.declared.value.Value.{Value};
ghost use Rattle.mq_ast.specs.declared.expressions.E.{E};
ghost use Rattle.mq_ast.specs.declared.levels.TheConstants as level;
ghost use Rattle.mq_ast.specs.Chains.{sum_term};
ghost use Rattle.mq_ast.specs.GrammarNames.{path_of};
ghost use Rattle.mq_parse_expr.specs.Lone.{Lone, Put};

use mq_ast::{E, Path, SumTerm, levels};
use mq_lexer::Token;
use mq_parse_words::{name_at, number_at, stops};
use mq_values::{Items, Memory, Num, SumOp, Value, Words};
use std::alloc::Global;

/// Puts a name or a number behind the members of a list, where one stands at the place and is a whole expression;
/// whether it did.
pub(crate) fn put_lone(
    alloc: Global,
    t: &[Token<'_>],
    at: usize,
    found: &mut Items<E>,
) -> Result<bool, Memory>
    ensures { IfOk result (Put (λ e. e) (Lone level.EXPRESSION t.now at) found.old found.new) }
{
    if at >= t.len() || !stops(t, at + 1, levels::EXPRESSION) {
        return Ok(false);
    }
    if let Some(name) = name_at(t, at) {
        put_name(alloc, found, name)?;
        return Ok(true);
    }
    match number_at(t, at) {
        Some(number) => {
            put_number(found, number)?;
            Ok(true)
        }
        None => Ok(false),
    }
}

/// Puts a name or a number behind the terms of a sum, where one stands at the place and is a whole term; whether it
/// did.
pub(crate) fn put_lone_term(
    alloc: Global,
    t: &[Token<'_>],
    at: usize,
    op: SumOp,
    found: &mut Items<SumTerm>,
) -> Result<bool, Memory>
    ensures { IfOk result (Put (sum_term op) (Lone level.PRODUCT t.now at) found.old found.new) }
{
    if at >= t.len() || !stops(t, at + 1, levels::PRODUCT) {
        return Ok(false);
    }
    if let Some(name) = name_at(t, at) {
        put_name_term(alloc, found, op, name)?;
        return Ok(true);
    }
    match number_at(t, at) {
        Some(number) => {
            put_number_term(found, op, number)?;
            Ok(true)
        }
        None => Ok(false),
    }
}

fn put_name(alloc: Global, found: &mut Items<E>, name: &str) -> Result<(), Memory>
    ensures { OnOk result (found.new ≡ found.old ++ E.Name (path_of None name.now) ∷ []) }
{
    let last = Words::new(alloc, name)?;
    found.push(E::Name(Path { first: None, last }))
}

fn put_number(found: &mut Items<E>, number: Num) -> Result<(), Memory>
    ensures { OnOk result (found.new ≡ found.old ++ E.Lit (Value.Num number) ∷ []) }
{
    found.push(E::Lit(Value::Num(number)))
}

fn put_name_term(
    alloc: Global,
    found: &mut Items<SumTerm>,
    op: SumOp,
    name: &str,
) -> Result<(), Memory>
    ensures { OnOk result (found.new ≡ found.old ++ sum_term op (E.Name (path_of None name.now)) ∷ []) }
{
    let last = Words::new(alloc, name)?;
    let e = E::Name(Path { first: None, last });
    found.push(SumTerm { op, e })
}

fn put_number_term(found: &mut Items<SumTerm>, op: SumOp, number: Num) -> Result<(), Memory>
    ensures { OnOk result (found.new ≡ found.old ++ sum_term op (E.Lit (Value.Num number)) ∷ []) }
{
    let e = E::Lit(Value::Num(number));
    found.push(SumTerm { op, e })
}
