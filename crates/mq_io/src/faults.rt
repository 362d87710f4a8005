// The answers other than the one that was asked for.
ghost use Rattle.std.specs.Prelude.{◌≡◌};
ghost use Rattle.mq_io.specs.declared.faults.IoFault.TheVariants as io;
ghost use Rattle.mq_io.specs.declared.faults.ReadFault.TheVariants as read;

use std::alloc::AllocError;
use thiserror::Error;

/// The object failed in this call, and its count of faults rose (docs/MEANING.md, "The outside").
#[derive(Clone, Copy, Debug, PartialEq, Error)]
#[error("the outside failed")]
pub struct Failed;

/// Why a sink took nothing, or a shelf gave no answer (docs/MEANING.md, "The outside").
#[derive(Clone, Copy, Debug, PartialEq, Error)]
pub enum IoFault {
    /// The object failed in this call, and its count of faults rose.
    #[error("the outside failed")]
    Failed,
    /// Memory ran out.
    #[error("out of memory")]
    Memory,
}

impl From<AllocError> for IoFault {
    ghost from_gives = { λ _ e. e ≡ io.Memory };

    fn from(_: AllocError) -> Self {
        IoFault::Memory
    }
}

/// Why a source was not read as a whole (docs/MEANING.md, "The outside").
#[derive(Clone, Copy, Debug, PartialEq, Error)]
pub enum ReadFault {
    /// The source gave more bytes than the limit.
    #[error("more bytes than the limit")]
    TooLong,
    /// The source failed in this call, and its count of faults rose.
    #[error("the outside failed")]
    Failed,
    /// Memory ran out.
    #[error("out of memory")]
    Memory,
}

impl From<Failed> for ReadFault {
    ghost from_gives = { λ _ e. e ≡ read.Failed };

    fn from(_: Failed) -> Self {
        ReadFault::Failed
    }
}

impl From<AllocError> for ReadFault {
    ghost from_gives = { λ _ e. e ≡ read.Memory };

    fn from(_: AllocError) -> Self {
        ReadFault::Memory
    }
}
