//! Shows what calls give that SQL does not reach: a table comes in on standard input, a row a line, each with the name of what is
//! asked. Out comes each line with its answer.
//! But for a helper it has no contracts: what it writes is compared with a table that was worked out by hand.
#![tactic(auto)]

mod answers;
mod changes;
mod held;
mod joins;
mod looks;
mod models;
mod printing;
mod ranges;
mod reads;
mod ready;
mod replays;
mod rounds;
mod rows;
mod runs;
mod scene;
mod scripts;
mod stores;
mod texts;
mod values;

use answers::Reply;
use scene::Scene;
use std::alloc::{AllocError, Global};
use std::io::{self, Write};
use std::thread::Threads;

fn main(rt: HostRuntime) -> io::Result<()> {
    let mut out = io::writer(&rt);
    let Ok(mut scene) = Scene::new(rt.alloc()) else {
        return Err(AllocError.into());
    };
    for line in rt.lines(rt.alloc()) {
        answer(&rt, rt.alloc(), &mut scene, line, &mut out)?;
    }
    Ok(())
}

// Answers one line. It is lent what was set, so that a way out does not let go of it.
fn answer<R: Threads + Sync, W: Write>(
    rt: &R,
    alloc: Global,
    scene: &mut Scene,
    line: io::Result<String>,
    out: &mut W,
) -> io::Result<()> {
    let line = line?;
    let mut reply = Reply::new(alloc);
    rows::answer(rt, scene, line.as_str(), &mut reply);
    if reply.is_lacking {
        return Err(AllocError.into());
    }
    out.write_all(&reply.text)
}
