//! What is found of a partition before its values are handed out.
use mq_ir::PartShape;
use mq_values::QueryFault;

/// What the rules of a model in automatic order make of a partition: its shape, of which every assignment has its
/// value, or why there is none (docs/MEANING.md, "Automatic order").
#[derive(Drop)]
pub enum Verdict {
    Done(PartShape),
    Broken(QueryFault),
}
