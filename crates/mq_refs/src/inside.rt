//! Where the expressions inside a reference stand.
ghost use Rattle.std.specs.Prelude.{◌≡◌};
ghost use Rattle.mq_values.specs.Answers.{Gives};
ghost use Rattle.mq_ir.specs.Reads.{inner_leaves};
ghost use Rattle.mq_refs.specs.Sites.{site_of};

use crate::standpoint::Standpoint;
use mq_ir::Leaf;
use mq_scalar::Env;
use mq_values::{Fail, Num, Value, ValueFault};
use std::alloc::Global;

/// The place of an expression that knows the dimensions of the target and the turn alone.
#[derive(Drop)]
pub struct Inside<'a> {
    pub at: &'a Standpoint<'a>,
}

impl Env for Inside<'_> {
    ghost gives = { λ env. inner_leaves (site_of env.at.now) };

    fn leaf(&mut self, _alloc: Global, leaf: &Leaf) -> Result<Value, Fail<ValueFault>> {
        inner_leaf(self.at, leaf)
    }
}

/// What a leaf is worth that names no cell: a dimension of the target, or the turn. All else is null.
pub fn inner_leaf(at: &Standpoint<'_>, leaf: &Leaf) -> Result<Value, Fail<ValueFault>>
    ensures { Gives result (inner_leaves (site_of at.now) leaf.now) }
{
    match leaf {
        Leaf::Cv(dim) => match at.target.as_slice().get(*dim as usize) {
            Some(v) => Ok(v.copy()?),
            None => Ok(Value::Null),
        },
        Leaf::Turn => Ok(Value::Num(Num::new(i128::from(at.turn), 0))),
        _ => Ok(Value::Null),
    }
}
