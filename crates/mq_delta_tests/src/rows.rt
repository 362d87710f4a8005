// Kept rows after changes of two small tables of numbers, with ample memory: some as they come out by hand, and many beside
// those that are computed from nothing over the tables after the change.
mod changes;
mod queries;
mod told;
mod turns;

use crate::rows::changes::Step;
use crate::rows::queries::Query;
use crate::rows::told::told;
use crate::rows::turns::run_of;
use mq_values::Memory;
use std::alloc::Global;
use std::test::Fail as Failed;

#[test]
fn a_table_that_stands_twice_changes_at_both_places(rt: HostRuntime) -> Result<(), Failed> {
    let alloc = rt.alloc();
    let query = Query::Twice;
    assert_eq!(rt;
        told(alloc, query, &[(1, 1), (2, 2)], &[Step::Update(1, 3)])?.as_slice(),
        b"(0 0)(1 0)(1 1) from (0 0)(0 1)(1 1)".as_slice()
    );
    Ok(())
}

#[test]
fn rows_come_in_go_out_and_move_down(rt: HostRuntime) -> Result<(), Failed> {
    let alloc = rt.alloc();
    let query = Query::Filtered;
    let cases: [(Step, &[u8]); 5] = [
        (Step::Insert(4, 40), b"(1)(2)(3) from (1)(2)"),
        (Step::Insert(4, 4), b"(1)(2) from (1)(2)"),
        (Step::Update(2, 5), b"(2) from (1)(2)"),
        (Step::Update(1, 11), b"(0)(1)(2) from (1)(2)"),
        (Step::Delete(1), b"(0)(1) from (1)(2)"),
    ];
    for (step, wanted) in cases {
        assert_eq!(rt;
            told(alloc, query, &[(1, 10), (2, 20), (3, 30)], &[step])?.as_slice(),
            wanted
        );
    }
    Ok(())
}

#[test]
fn a_fault_of_a_changed_row_is_given_and_the_rows_before_stay(
    rt: HostRuntime,
) -> Result<(), Failed> {
    let alloc = rt.alloc();
    let query = Query::Divided;
    assert_eq!(rt;
        told(alloc, query, &[(1, 3), (2, 6)], &[Step::Update(2, 0)])?.as_slice(),
        b"divides by zero from (0)".as_slice()
    );
    Ok(())
}

// Rows come and go, and the key of one that went comes once more: in the end there are (2, 20), (3, 4), (4, 41), (1, 15).
fn told_of_a_block(alloc: Global, query: Query) -> Result<Vec<u8>, Memory> {
    let steps = [
        Step::Insert(4, 40),
        Step::Delete(1),
        Step::Update(3, 4),
        Step::Update(4, 41),
        Step::Insert(5, 1),
        Step::Delete(5),
        Step::Insert(1, 15),
    ];
    told(alloc, query, &[(1, 10), (2, 20), (3, 30)], &steps)
}

#[test]
fn a_block_is_as_good_as_one_change(rt: HostRuntime) -> Result<(), Failed> {
    let alloc = rt.alloc();
    let query = Query::Filtered;
    assert_eq!(rt;
        told_of_a_block(alloc, query)?.as_slice(),
        b"(0)(2)(3) from (1)(2)".as_slice()
    );
    Ok(())
}

#[test]
fn so_it_is_where_the_table_stands_twice(rt: HostRuntime) -> Result<(), Failed> {
    let alloc = rt.alloc();
    let query = Query::Twice;
    assert_eq!(rt;
        told_of_a_block(alloc, query)?.as_slice(),
        b"(0 0)(0 2)(1 0)(1 1)(1 2)(1 3)(2 2)(3 0)(3 2)(3 3) from (0 0)(0 1)(0 2)(1 1)(1 2)(2 2)".as_slice()
    );
    Ok(())
}

// How often there are kept rows, and how often a fault, a plain program counted that goes over all tuples.
#[test]
fn what_is_found_is_what_is_computed_from_nothing(rt: HostRuntime) -> Result<(), Failed> {
    let alloc = rt.alloc();
    let cases = [
        (Query::Divided, 200, 21),
        (Query::Twice, 566, 0),
        (Query::Joined, 384, 20),
        (Query::JoinedFour, 356, 23),
    ];
    for (query, rows, faults) in cases {
        let tally = run_of(alloc, query)?;
        assert_eq!(rt; tally.wrong, 0);
        assert_eq!(rt; tally.rows, rows);
        assert_eq!(rt; tally.faults, faults);
    }
    Ok(())
}
