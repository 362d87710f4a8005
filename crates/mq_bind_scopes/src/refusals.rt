//! Offences as refusals.

ghost use Rattle.std.specs.Prelude.{◌≡◌, IfOk};
ghost use Rattle.mq_bind_scopes.specs.Refusals as spec;

use mq_values::{Fail, Memory, Refused, Words};

/// An operand or a value of a wrong kind.
pub fn mismatch() -> Fail<Refused>
    ensures { result ≡ Fail.Cause spec.kind_mismatch }
{
    Fail::Cause(Refused::KindMismatch)
}

/// The misuse of this number.
pub fn misuse(number: u32) -> Fail<Refused>
    ensures { result ≡ Fail.Cause (spec.misuse number) }
{
    Fail::Cause(Refused::ModelForm(number))
}

/// The limit of this number.
pub fn limit(number: u32) -> Fail<Refused>
    ensures { result ≡ Fail.Cause (spec.limit number) }
{
    Fail::Cause(Refused::Limit(number))
}

/// A name that is not there.
pub fn unknown_name(name: Words) -> Fail<Refused>
    ensures { result ≡ Fail.Cause (spec.unknown_name name) }
{
    Fail::Cause(Refused::UnknownName(name))
}

/// A name that is there already, or is ambiguous.
pub fn duplicate_name(name: Words) -> Fail<Refused>
    ensures { result ≡ Fail.Cause (spec.duplicate_name name) }
{
    Fail::Cause(Refused::DuplicateName(name))
}

/// A number in 32 bits. No statement within the limits of a script has so many things of one kind that it does not fit,
/// so want of memory is the answer.
pub fn number(n: usize) -> Result<u32, Memory>
    ensures { IfOk result (λ m. m ≡ n) }
{
    match u32::try_from(n) {
        Ok(m) => Ok(m),
        Err(_) => Err(Memory),
    }
}
