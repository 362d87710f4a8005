//! Where results stand.
ghost use Rattle.std.specs.Prelude.{◌≡◌};
ghost use Rattle.std.specs.Option.{option_copied};
ghost use Rattle.mq_cells.specs.Stores.{Results, cell_name};

use mq_ir::Slot;
use mq_values::Key;

/// Results that are lent.
pub trait Held {
    /// What stands at assigned measures.
    ghost stands: { Self → Results };

    /// The result at measure `m` of the cell at `key`, or `None` where none stands. It takes no memory.
    fn result(&self, key: &Key, m: u32) -> Option<&Slot>
        ensures { option_copied result ≡ stands self.now (cell_name key.now m) };
}
