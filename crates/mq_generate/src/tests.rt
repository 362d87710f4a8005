// Each call with ample memory. What is expected was worked out from specs/Script and specs/Summary by hand and,
// where it is long, by a plain calculation outside.
ghost use Rattle.std.specs.Prelude.{◌<◌};

use super::{SummarySink, generated, statement_count};
use mq_io::{Sink, write_all};
use std::test::Fail;

// The script of the number 7 and one product, up to its first change.
const FIRST_LINES: &str =
    "CREATE TABLE SALES (PROD INT, YR INT, AMT DECIMAL(2), PRIMARY KEY (PROD, YR));
INSERT INTO SALES VALUES (1,2000,195.64),(1,2001,98.06),(1,2002,108.68),(1,2003,226.74),(1,2004,325.31),(1,2005,33.65),(1,2006,320.34),(1,2007,317.90),(1,2008,79.85),(1,2009,109.13),(1,2010,112.13),(1,2011,253.63),(1,2012,296.30),(1,2013,258.74),(1,2014,7.49),(1,2015,3.22),(1,2016,141.85),(1,2017,236.54),(1,2018,191.50),(1,2019,74.60);
CREATE VIEW F AS SELECT PROD, YR, S FROM SALES MODEL PARTITION BY (PROD) DIMENSION BY (YR) MEASURES (AMT S) RULES AUTOMATIC ORDER (S[FOR YR FROM 2020 TO 2024 INCREMENT 1] = (S[CV(YR)-1] + S[CV(YR)-2]) / 2, S[0] = SUM(S)[YR BETWEEN 2015 AND 2024]) ORDER BY PROD, YR;
UPDATE SALES SET AMT = 50.79 WHERE PROD = 1 AND YR = 2007;
";

// Outputs, each with its summary as that of three statements.
const SUMMARIES: [(&str, &str); 10] = [
    ("", "statements 3\nerrors 0\nfaults 0\nbytes 0\nlast -\n"),
    (
        "ok\nok 2\n",
        "statements 3\nerrors 0\nfaults 0\nbytes 8\nlast -\n",
    ),
    (
        "1|'a|b'\n'x''y'|2\nrows 2\n",
        "statements 3\nerrors 0\nfaults 0\nbytes 24\nlast 'x''y'|2\n",
    ),
    (
        "NULL|1\nNULL\nrows 2\n",
        "statements 3\nerrors 0\nfaults 0\nbytes 19\nlast NULL\n",
    ),
    (
        "error line 1: SYNTAX\n1\nrows 1\nerror line 3: SYNTAX\n",
        "statements 3\nerrors 2\nfaults 0\nbytes 51\nlast 1\n",
    ),
    (
        "5\nfault OVERFLOW rule 1 partition () cell (1)\n",
        "statements 3\nerrors 0\nfaults 1\nbytes 46\nlast 5\n",
    ),
    // A last line without LF.
    (
        "-1\n2.50",
        "statements 3\nerrors 0\nfaults 0\nbytes 7\nlast 2.50\n",
    ),
    (
        "1\nerror",
        "statements 3\nerrors 1\nfaults 0\nbytes 7\nlast 1\n",
    ),
    (
        "7\nfault",
        "statements 3\nerrors 0\nfaults 1\nbytes 7\nlast 7\n",
    ),
    // A row without values.
    (
        "7\n\n",
        "statements 3\nerrors 0\nfaults 0\nbytes 3\nlast \n",
    ),
];

#[test]
fn scripts_are_those_of_their_number_and_size(rt: HostRuntime) -> Result<(), Fail> {
    let alloc = rt.alloc();
    let script = generated(alloc, 7, 1)?;
    assert!(rt; script.starts_with(FIRST_LINES.as_bytes()));
    // Number, size, bytes, statements, and each byte added to 31 times what was added up before.
    let cases = [
        (7, 3, 7362, 109, 17_152_416_310_430_528_984u64),
        (4_294_967_295, 2, 7013, 108, 15_937_746_244_588_558_060),
    ];
    for (number, size, bytes, statements, sum) in cases {
        let script = generated(alloc, number, size)?;
        let mut lines = 0u64;
        let mut added = 0u64;
        for byte in &script {
            lines = lines.wrapping_add(u64::from(*byte == b'\n'));
            added = added.wrapping_mul(31).wrapping_add(u64::from(*byte));
        }
        assert_eq!(rt; script.len(), bytes);
        assert_eq!(rt; lines, statements);
        assert_eq!(rt; statement_count(size), statements);
        assert_eq!(rt; added, sum);
    }
    Ok(())
}

fn write_in_pieces<K: Sink>(sink: &mut K, text: &str, piece: usize) -> Result<(), Fail>
    requires { 0 < piece }
{
    for part in text.as_bytes().chunks(piece) {
        write_all(sink, part)?;
    }
    Ok(())
}

#[test]
fn a_summary_is_that_of_what_was_written(rt: HostRuntime) -> Result<(), Fail> {
    for (output, summary) in SUMMARIES {
        for piece in [1, 3, 1000] {
            let mut sink = SummarySink::new(rt.alloc());
            write_in_pieces(&mut sink, output, piece)?;
            let mut out = b"before\n".to_vec(rt.alloc())?;
            let mut meant = out.clone()?;
            sink.summary(3, &mut out)?;
            meant.extend_from_slice(summary.as_bytes())?;
            assert_eq!(rt; out, meant);
        }
    }
    Ok(())
}
