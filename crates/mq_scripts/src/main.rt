//! Shows what scripts print: a table of scripts comes in on standard input.
//! Out come each script's name, the lines of its run, and its status. It is how mq_tool is tested.
//! It has no contracts: what it writes is compared with a table that was worked out by hand.
#![tactic(auto)]

mod gates;
mod heads;
mod rules;
mod runs;
mod shows;
mod table;
mod texts;
mod watches;

use std::alloc::AllocError;
use std::io::{self, Write};

fn main(rt: HostRuntime) -> io::Result<()> {
    let mut out = io::writer(&rt);
    let mut table = table::Table::new(rt.alloc());
    for line in rt.lines(rt.alloc()) {
        let Ok(answer) = table::answered(&rt, rt.alloc(), &mut table, line?.as_str()) else {
            return Err(AllocError.into());
        };
        out.write_all(&answer)?;
    }
    let Ok(answer) = table::ended(&rt, rt.alloc(), &mut table) else {
        return Err(AllocError.into());
    };
    out.write_all(&answer)?;
    Ok(())
}
