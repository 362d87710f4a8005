ghost use Rattle.std.specs.Prelude.{◌≡◌, ◌++◌, length, take, OnOk, OnErr};
ghost use Rattle.mq_values.specs.Print.{quoted, printed};

use crate::memory::Memory;
use crate::value::Value;

/// Appends the printed text of `value` to `out`: a number with as many digits behind the point as its
/// scale, a text between quotation marks with each inner one doubled, a date as `2000-01-31`, null as `NULL`
/// (docs/LANGUAGE.md, "Printed values"). After `Memory` `out` is as before.
pub fn print(value: &Value, out: &mut Vec<u8>) -> Result<(), Memory>
    ensures ok { OnOk result (out.new.items ≡ out.old.items ++ printed value.now) }
    ensures err { OnErr result (out.new.items ≡ out.old.items) }
{
    match value {
        Value::Num(n) => n.print(out),
        Value::Text(t) => print_text(t.as_str(), out),
        Value::Date(d) => d.print(out),
        Value::Null => Ok(out.extend_from_slice(b"NULL")?),
    }
}

fn print_text(text: &str, out: &mut Vec<u8>) -> Result<(), Memory>
    ensures ok { OnOk result (out.new.items ≡ out.old.items ++ quoted text.now) }
    ensures err { OnErr result (out.new.items ≡ out.old.items) }
{
    let before = out.len();
    match quote(text.as_bytes(), out) {
        Ok(()) => Ok(()),
        Err(wanted) => {
            out.truncate(before);
            Err(wanted)
        }
    }
}

/// Appends the bytes between quotation marks, or a part of that where memory runs out.
fn quote(bytes: &[u8], out: &mut Vec<u8>) -> Result<(), Memory>
    ensures ok { OnOk result (out.new.items ≡ out.old.items ++ quoted bytes.now) }
    ensures front { take (length out.old.items) out.new.items ≡ out.old.items }
{
    out.push(b'\'')?;
    for &byte in bytes {
        out.push(byte)?;
        if byte == b'\'' {
            out.push(byte)?;
        }
    }
    out.push(b'\'')?;
    Ok(())
}
