//! Whether the rules of a model may run, as a test.
ghost use Rattle.std.specs.Prelude.{◌≡◌, ◌↔◌, IsTrue};
ghost use Rattle.mq_ir.specs.Ready.{LeftHasPlaces, LeftsHavePlaces, QueryIsReady, width_of};

use mq_ir::{BoundQuery, Left, ModelPart};

/// Whether each left side of a model has a place for each dimension.
pub fn lefts_have_places(part: &ModelPart) -> bool
    ensures { IsTrue result ↔ LeftsHavePlaces part.now }
{
    let n = part.dims.len();
    part.rules
        .as_slice()
        .iter()
        .all(|rule| has_places(n, &rule.left))
}

fn has_places(n: usize, left: &Left) -> bool
    ensures { IsTrue result ↔ LeftHasPlaces n left.now }
{
    match left {
        Left::Places(items) => items.len() == n,
        Left::Tuples(_, _) => true,
    }
}

/// Whether the rules of a query over three items may run: its model has a partition column, a dimension and a measure.
pub fn query_is_ready(q: &BoundQuery) -> bool
    ensures { IsTrue result → QueryIsReady q.now }
{
    match &q.model {
        Some(part) => has_one_each(part) && q.items.items.len() == 3 && lefts_have_places(part),
        None => false,
    }
}

fn has_one_each(part: &ModelPart) -> bool
    ensures { IsTrue result → width_of part.now ≡ 3 }
{
    part.parts == 1 && part.dims.len() == 1 && part.measures.len() == 1
}
