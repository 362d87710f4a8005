//! Where the expressions of a left side stand.
ghost use Rattle.mq_ir.specs.Unfolding.{left_leaves};

use mq_ir::Leaf;
use mq_scalar::Env;
use mq_values::{Fail, Num, Value, ValueFault};
use std::alloc::Global;

/// The place of an expression that knows the number of the turn alone, and sees no cell.
#[derive(Drop)]
pub struct TurnAlone {
    pub turn: u32,
}

impl Env for TurnAlone {
    ghost gives = { λ env. left_leaves env.turn };

    fn leaf(&mut self, _alloc: Global, leaf: &Leaf) -> Result<Value, Fail<ValueFault>> {
        match leaf {
            Leaf::Turn => Ok(Value::Num(Num::new(i128::from(self.turn), 0))),
            _ => Ok(Value::Null),
        }
    }
}
