//! Where a right side stands.
use mq_ir::Model;
use mq_values::Key;

/// Where a right side stands: a model, the cell that is assigned, and the turn. Definitions see it by `site_of`, and with the
/// cells that are there by `site_over` (specs/Sites).
#[derive(Clone, Copy)]
pub struct Standpoint<'a> {
    pub model: &'a Model<'a>,
    pub target: &'a Key,
    pub turn: u32,
}
