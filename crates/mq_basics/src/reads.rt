//! Aggregates of values in hand, and what PRESENTV and PRESENTNNV choose.

use crate::answers::Reply;
use crate::texts::{cut, key, value};
use mq_ir::Slot;
use mq_reads::{Aggregation, aggregate, presentnnv, presentv};
use mq_values::{Agg, Fail, Value, ValueFault};

/// An aggregate, and behind a tab values: what it makes of them at once; and where it makes something else of them one
/// by one, that too.
pub(crate) fn aggregated(text: &str, reply: &mut Reply) {
    let (name, list) = cut(text, "\t", reply);
    let agg = aggregate_named(name, reply);
    let values = key(list, reply);
    add_outcome(aggregate(agg, values.as_slice()), reply);
    let mut again = Reply::new(reply.alloc);
    add_outcome(one_by_one(agg, values.as_slice()), &mut again);
    reply.but(&again);
}

fn aggregate_named(name: &str, reply: &mut Reply) -> Agg {
    match name {
        "SUM" => Agg::Sum,
        "AVG" => Agg::Avg,
        "MIN" => Agg::Min,
        "MAX" => Agg::Max,
        "COUNT" => Agg::Count,
        _ => {
            reply.unread();
            Agg::Count
        }
    }
}

fn one_by_one(agg: Agg, values: &[Value]) -> Result<Value, Fail<ValueFault>> {
    let mut aggregation = Aggregation::new(agg);
    for v in values {
        aggregation = aggregation.with(v)?;
    }
    match aggregation.finish() {
        Ok(v) => Ok(v),
        Err(fault) => Err(Fail::Cause(fault)),
    }
}

/// A value, or the name of the fault.
pub(crate) fn add_outcome(found: Result<Value, Fail<ValueFault>>, reply: &mut Reply) {
    match found {
        Ok(v) => reply.value(&v),
        Err(Fail::Cause(fault)) => reply.slot(&Slot::Faulted(fault)),
        Err(Fail::Memory) => reply.is_lacking = true,
    }
}

/// A cell that is `present`, `null` in its measure or `absent`, and behind tabs two values: what PRESENTV chooses of
/// them, and behind a tab PRESENTNNV.
pub(crate) fn chosen(text: &str, reply: &mut Reply) {
    let (state, rest) = cut(text, "\t", reply);
    let (first, second) = cut(rest, "\t", reply);
    let present = state != "absent";
    let by_presence = presentv(present, value(first, reply), value(second, reply));
    reply.value(&by_presence);
    reply.add("\t");
    let not_null = state == "present";
    let by_value = presentnnv(present, not_null, value(first, reply), value(second, reply));
    reply.value(&by_value);
}
