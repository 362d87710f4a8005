//! A law of the definitions. The function does nothing: what it ensures is the law.

ghost use Rattle.std.specs.Prelude.{ℕ, ◌<◌, ◌^◌, IsUtf8};
ghost use Rattle.mq_generate.specs.Script.{script_of};

/// A generated script is UTF-8.
pub fn scripts_are_text()
    ensures { (number size : ℕ) → 0 < size → size < 2 ^ 32 → IsUtf8 (script_of number size) }
{}
