// A view that is kept, compared under two scenarios by either call, with ample memory: what it answers, by hand. Small functions make
// what is asked and write what comes as texts: a test that holds what is let go is dear to prove.
mod planned;
mod session;

use crate::scenarios::session::{names, planned, show, write_beside, write_in_place};
use mq_values::Memory;
use std::alloc::Global;
use std::test::Fail as Failed;
use std::thread::Threads;

// The view as it stands; then under UP, whose changes are made in place, and under TWICE, where the second change is refused when the
// first was made: by the one call, by the other; and the view behind them.
const WANTED: &[u8] = b"(1 1 10)(1 2 20)(1 3 30)(2 1 5)(2 2 7)(2 3 12)|\
    UP(1 1 11)(1 2 25)(1 3 36)(2 1 5)(2 2 7)(2 3 12)TWICE 2 repeats a key|\
    UP(1 1 11)(1 2 25)(1 3 36)(2 1 5)(2 2 7)(2 3 12)TWICE 2 repeats a key|\
    (1 1 10)(1 2 20)(1 3 30)(2 1 5)(2 2 7)(2 3 12)";

fn told<R: Threads + Sync>(rt: &R, alloc: Global) -> Result<Vec<u8>, Memory> {
    let mut engine = planned(alloc)?;
    let names = names(alloc)?;
    let mut out = Vec::new(alloc);
    show(rt, alloc, &mut engine, &mut out)?;
    out.push(b'|')?;
    write_beside(rt, alloc, &engine, &names, &mut out)?;
    out.push(b'|')?;
    write_in_place(rt, alloc, &mut engine, &names, &mut out)?;
    out.push(b'|')?;
    show(rt, alloc, &mut engine, &mut out)?;
    Ok(out)
}

#[test]
fn a_comparison_made_in_place_answers_as_one_made_beside(rt: HostRuntime) -> Result<(), Failed> {
    assert_eq!(rt; told(&rt, rt.alloc())?.as_slice(), WANTED);
    Ok(())
}
