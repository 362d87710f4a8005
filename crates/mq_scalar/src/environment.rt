use mq_ir::Leaf;
use mq_values::{Fail, Value, ValueFault};
use std::alloc::Global;

/// Where an expression stands: it knows what each leaf is worth there (docs/MEANING.md, "Expressions").
pub trait Env {
    ghost use Rattle.std.specs.Prelude.{◌≡◌};
    ghost use Rattle.mq_values.specs.Answers.{Gives};
    ghost use Rattle.mq_ir.specs.Expression.{Outcome};
    ghost use Rattle.mq_ir.specs.declared.expression.Leaf.{Leaf};

    /// The value of each leaf, or its fault.
    ghost gives: { Self → Leaf → Outcome };

    /// The value of `leaf` here, or its fault. What a leaf is worth is changed by no call. A leaf that asks
    /// whether a cell is present gives the INT 1 where it holds, and 0 where it does not.
    fn leaf(&mut self, alloc: Global, leaf: &Leaf) -> Result<Value, Fail<ValueFault>>
        ensures exact { Gives result (gives self.old leaf.now) }
        ensures same { gives self.new ≡ gives self.old };
}
