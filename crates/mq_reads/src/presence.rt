//! The choice that PRESENTV and PRESENTNNV make between values in hand.
ghost use Rattle.std.specs.Prelude.{◌≡◌, Ok};
ghost use Rattle.mq_ir.specs.Conditions.{asked, both_asked, chosen};
ghost use Rattle.mq_ir.specs.Worth.{flag};

use mq_values::Value;

/// PRESENTV: `a` where the cell is present, else `b`. A caller that has evaluated only one of them passes null for
/// the other (docs/MEANING.md, "What an expression is worth").
pub fn presentv(present: bool, a: Value, b: Value) -> Value
    ensures { chosen (asked (Ok (flag present))) (Ok a) (Ok b) ≡ Ok result }
{
    if present { a } else { b }
}

/// PRESENTNNV: `a` where the cell is present and its measure is not null, else `b`.
pub fn presentnnv(present: bool, not_null: bool, a: Value, b: Value) -> Value
    ensures { chosen (both_asked (Ok (flag present)) (Ok (flag not_null))) (Ok a) (Ok b) ≡ Ok result }
{
    if present && not_null { a } else { b }
}
