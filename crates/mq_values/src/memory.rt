use std::alloc::{AllocError, AllocFailed};

/// Memory ran out. It is the one answer that no rule asks for, and is merged with no other.
#[derive(Clone, Copy, Debug, PartialEq, Eq)]
pub struct Memory;

impl From<AllocError> for Memory {
    fn from(_refused: AllocError) -> Memory {
        Memory
    }
}

impl<T: Drop> From<AllocFailed<T>> for Memory {
    fn from(_refused: AllocFailed<T>) -> Memory {
        Memory
    }
}

/// Why a call gave no value: a cause of its own, or want of memory.
#[derive(Debug, Drop, PartialEq, Eq)]
pub enum Fail<E> {
    Cause(E),
    Memory,
}

impl<E> From<Memory> for Fail<E> {
    ghost use Rattle.std.specs.Prelude.{◌≡◌};
    ghost use Rattle.mq_values.specs.declared.memory.Fail.TheVariants as fail;

    ghost from_gives = { λ _ e. e ≡ fail.Memory };

    fn from(_wanted: Memory) -> Fail<E> {
        Fail::Memory
    }
}

impl<E> From<AllocError> for Fail<E> {
    ghost use Rattle.std.specs.Prelude.{◌≡◌};
    ghost use Rattle.mq_values.specs.declared.memory.Fail.TheVariants as fail;

    ghost from_gives = { λ _ e. e ≡ fail.Memory };

    fn from(_refused: AllocError) -> Fail<E> {
        Fail::Memory
    }
}

impl<E, T: Drop> From<AllocFailed<T>> for Fail<E> {
    ghost use Rattle.std.specs.Prelude.{◌≡◌};
    ghost use Rattle.mq_values.specs.declared.memory.Fail.TheVariants as fail;

    ghost from_gives = { λ _ e. e ≡ fail.Memory };

    fn from(_refused: AllocFailed<T>) -> Fail<E> {
        Fail::Memory
    }
}
