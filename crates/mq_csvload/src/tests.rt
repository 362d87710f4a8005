//! Files with the rows that they hold, or their refusals, by hand.
use super::*;
use mq_ir::{Column, Schema};
use mq_values::{Fail as Failed, Items, Kind, Memory, Num, Refused, Value, Words, print};
use std::alloc::Global;
use std::test::Fail;

// A line a file: its bytes, `=`, and its rows or its refusal. The table has the columns ID INT NOT NULL, AMT DECIMAL(2), NAME TEXT,
// DAY DATE. `@` stands for the header, `~` for a byte order mark, and behind `\` n for LF, r for CR, t for a tab, d for the
// delete character, u for the two bytes of a letter in UTF-8, l for the first of them alone, x for a byte that no UTF-8 has.
const CASES: &str =
    r#"ID,AMT,NAME,DAY\r\n1,2,a,2024-02-29\r\n2,2.5,b,0001-01-01\r\n=1|2.00|'a'|2024-02-29;2|2.50|'b'|0001-01-01;
@1,,,\n2,,,=1|NULL|NULL|NULL;2|NULL|NULL|NULL;
ID,AMT,NAME,DAY\r1,,,\r2,,,\r=1|NULL|NULL|NULL;2|NULL|NULL|NULL;
\n\r\n\n@\n\n\n1,,,\r\n\r\n\n2,,,\n\n=1|NULL|NULL|NULL;2|NULL|NULL|NULL;
"ID","AMT",NAME,"DAY"\n"1","2.50","a,b""c""",""\n=1|2.50|'a,b"c"'|NULL;
@1,,it's,\n=1|NULL|'it''s'|NULL;
@1,,"a\nb",\n=row 1
@1,,"a",\n2,,"b,,\n3,,,\n=row 2
~@1,,,\n=1|NULL|NULL|NULL;
~~@1,,,\n=1|NULL|NULL|NULL;
~~~@1,,,\n=header
~=header
=header
\n\r\n=header
ID,AMT,NAME,DAY=
@=
id,Amt,namE,DAY\n1,,,\n=1|NULL|NULL|NULL;
AMT,ID,NAME,DAY\n1,,,\n=header
ID,AMT,NAME\n1,,,\n=header
ID,AMT,NAME,DAY,\n1,,,\n=header
ID,AMT,NAME,DAYS\n1,,,\n=header
ID,AMT,NAME, DAY\n1,,,\n=header
ID,AMT\n1,,x\n=header
@1,,\n=row 1
@1,,,,\n=row 1
@1\n=row 1
@1,,,\n2,,,\nx,,,\n4,y,,\n=row 3
@1,,,\n,,,\n=row 2
@1,,,2024-02-30\n1,,\n=row 1
@1,,,\n1,,,\n=1|NULL|NULL|NULL;1|NULL|NULL|NULL;
@+7,,,=7|NULL|NULL|NULL;
@-7,,,=-7|NULL|NULL|NULL;
@-0,,,=0|NULL|NULL|NULL;
@007,,,=7|NULL|NULL|NULL;
@1,+.5,,=1|0.50|NULL|NULL;
@1,-.5,,=1|-0.50|NULL|NULL;
@1,7.,,=row 1
@1,.,,=row 1
@1,+,,=row 1
@1,-,,=row 1
@1,--7,,=row 1
@1,+-7,,=row 1
@ 7,,,=row 1
@7 ,,,=row 1
@1e3,,,=row 1
@0x1,,,=row 1
@1.2.3,,,=row 1
@x,,,=row 1
@\x,,,=row 1
@-\x,,,=row 1
@NULL,,,=row 1
@'7',,,=row 1
@1,1.005,,=1|1.01|NULL|NULL;
@1,-1.005,,=1|-1.01|NULL|NULL;
@1,1.004999999999,,=1|1.00|NULL|NULL;
@2.5,,,=3|NULL|NULL|NULL;
@-0.4,,,=0|NULL|NULL|NULL;
@1,1.0000000000000,,=row 1
@1,1.000000000000,,=1|1.00|NULL|NULL;
@170141183460469231731687303715884105727,,,=170141183460469231731687303715884105727|NULL|NULL|NULL;
@-170141183460469231731687303715884105727,,,=-170141183460469231731687303715884105727|NULL|NULL|NULL;
@170141183460469231731687303715884105728,,,=row 1
@-170141183460469231731687303715884105728,,,=row 1
@1,1701411834604692317316873037158841057,,=1|1701411834604692317316873037158841057.00|NULL|NULL;
@1,1701411834604692317316873037158841058,,=row 1
@1,, a ,=1|NULL|' a '|NULL;
@1,,7,=1|NULL|'7'|NULL;
@1,,\u,=1|NULL|'ä'|NULL;
@1,,a\tb,=row 1
@1,,a\db,=row 1
@1,,\l,=row 1
@1,,,9999-12-31=1|NULL|NULL|9999-12-31;
@1,,,2024-02-30=row 1
@1,,,2024-2-3=row 1
@1,,,2024-02-03 =row 1
@1,,,20240203=row 1
@1,,,\x024-02-03=row 1"#;

const HEADER: &[u8] = b"ID,AMT,NAME,DAY\n";

const MARK: &[u8] = b"\xEF\xBB\xBF";

fn column(alloc: Global, name: &str, kind: Kind, not_null: bool) -> Result<Column, Memory> {
    Ok(Column {
        name: Words::new(alloc, name)?,
        kind,
        not_null,
    })
}

fn schema(alloc: Global) -> Result<Schema, Memory> {
    let mut cols = Items::new(alloc);
    cols.push(column(alloc, "ID", Kind::Int, true)?)?;
    cols.push(column(alloc, "AMT", Kind::Decimal(2), false)?)?;
    cols.push(column(alloc, "NAME", Kind::Text, false)?)?;
    cols.push(column(alloc, "DAY", Kind::Date, false)?)?;
    Ok(Schema {
        cols,
        key: Items::new(alloc),
    })
}

// The bytes that a letter behind `\` stands for.
fn escaped(letter: u8) -> &'static [u8] {
    match letter {
        b'n' => b"\n",
        b'r' => b"\r",
        b't' => b"\t",
        b'd' => b"\x7F",
        b'u' => b"\xC3\xA4",
        b'l' => b"\xC3",
        _ => b"\xFF",
    }
}

// The bytes of a file as a case writes them.
fn file_of(alloc: Global, text: &str) -> Result<Vec<u8>, Memory> {
    let mut bytes = Vec::new(alloc);
    let mut is_escaped = false;
    for &byte in text.as_bytes() {
        if is_escaped {
            bytes.extend_from_slice(escaped(byte))?;
        } else if byte == b'@' {
            bytes.extend_from_slice(HEADER)?;
        } else if byte == b'~' {
            bytes.extend_from_slice(MARK)?;
        } else if byte != b'\\' {
            bytes.push(byte)?;
        }
        is_escaped = byte == b'\\';
    }
    Ok(bytes)
}

// Appends the values with `|` between them and `;` behind them.
fn write_row(values: &[Value], out: &mut Vec<u8>) -> Result<(), Memory> {
    for (at, value) in values.iter().enumerate() {
        if at > 0 {
            out.push(b'|')?;
        }
        print(value, out)?;
    }
    Ok(out.push(b';')?)
}

fn write_refusal(refused: &Refused, out: &mut Vec<u8>) -> Result<(), Memory> {
    match refused {
        Refused::LoadHeader => Ok(out.extend_from_slice(b"header")?),
        Refused::LoadRow(number) => {
            out.extend_from_slice(b"row ")?;
            print(&Value::Num(Num::new(*number as i128, 0)), out)
        }
        _ => Ok(out.extend_from_slice(b"another refusal")?),
    }
}

// The rows of a file, or the refusal.
fn loaded(alloc: Global, bytes: &[u8], schema: &Schema) -> Result<Vec<u8>, Memory> {
    let mut out = Vec::new(alloc);
    match load_rows(alloc, bytes, schema) {
        Ok(rows) => {
            for row in rows.iter() {
                write_row(row.as_slice(), &mut out)?;
            }
        }
        Err(Failed::Cause(refused)) => write_refusal(&refused, &mut out)?,
        Err(Failed::Memory) => return Err(Memory),
    }
    Ok(out)
}

// A file with a text of so many bytes.
fn file_of_text(alloc: Global, count: usize) -> Result<Vec<u8>, Memory> {
    let mut bytes = file_of(alloc, "@1,,")?;
    for _ in 0..count {
        bytes.push(b'x')?;
    }
    bytes.push(b',')?;
    Ok(bytes)
}

#[test]
fn files_hold_rows_or_are_refused(rt: HostRuntime) -> Result<(), Fail> {
    let alloc = rt.alloc();
    let schema = schema(alloc)?;
    for case in CASES.lines() {
        if let Some((file, wanted)) = case.split_once('=') {
            let found = loaded(alloc, &file_of(alloc, file)?, &schema)?;
            assert_eq!(rt; found.as_slice(), wanted.as_bytes(), "{case}");
        }
    }
    let longest = loaded(alloc, &file_of_text(alloc, 256)?, &schema)?;
    assert_eq!(rt; longest.len(), 271);
    let longer = loaded(alloc, &file_of_text(alloc, 257)?, &schema)?;
    assert_eq!(rt; longer.as_slice(), b"row 1".as_slice());
    Ok(())
}
