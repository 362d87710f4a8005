//! Why a statement is not done, and why a run stops.

ghost use Rattle.std.specs.Prelude.{◌≡◌};
ghost use Rattle.mq_tool.specs.declared.stops.Stop.TheVariants as stop;
ghost use Rattle.mq_tool.specs.Steps.{stop_of};

use mq_values::{Fail, Memory, Refused};

/// Why a statement is not done.
#[derive(Drop)]
pub(crate) enum Stop {
    /// It is refused.
    Refused(Refused),
    /// It is a LOAD, and the shelf failed.
    NotFetched,
    /// Memory ran out.
    Memory,
}

impl From<Memory> for Stop {
    ghost from_gives = { λ _ e. e ≡ stop.Memory };

    fn from(_: Memory) -> Self {
        Stop::Memory
    }
}

impl From<Fail<Refused>> for Stop {
    ghost from_gives = { λ fault e. e ≡ stop_of fault };

    fn from(fault: Fail<Refused>) -> Self {
        match fault {
            Fail::Cause(refused) => Stop::Refused(refused),
            Fail::Memory => Stop::Memory,
        }
    }
}

/// Why a run stops before its end.
#[derive(Drop)]
pub(crate) enum Halt {
    /// The shelf failed.
    ReadFailed,
    /// The sink failed.
    WriteFailed,
    /// Memory ran out.
    Memory,
}
