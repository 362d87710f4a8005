//! A row of the table: what is asked, and of what, with tabs between them.

use crate::answers::Reply;
use crate::scene::{Scene, set_assigned, set_base, set_cells};
use crate::{
    changes, held, joins, looks, printing, ranges, reads, replays, rounds, runs, scripts, stores,
    values,
};
use std::thread::Threads;

/// The row, and behind a tab what it asks for. A row without a tab stays as it is, and so does one that sets something.
pub(crate) fn answer<R: Threads + Sync>(rt: &R, scene: &mut Scene, row: &str, out: &mut Reply) {
    out.add(row);
    if let Some((asked, text)) = row.split_once('\t') {
        let mut reply = Reply::new(out.alloc);
        tell_of_values(rt, scene, asked, text, &mut reply);
        add_reply(&reply, out);
    }
    out.add("\n");
}

fn add_reply(reply: &Reply, out: &mut Reply) {
    if reply.is_unreadable {
        out.add("\tunreadable");
    } else {
        out.add_if(!reply.text.is_empty(), "\t");
        out.join(reply);
    }
    out.is_lacking |= reply.is_lacking;
}

fn tell_of_values<R: Threads + Sync>(
    rt: &R,
    scene: &mut Scene,
    asked: &str,
    text: &str,
    reply: &mut Reply,
) {
    match asked {
        "value" => values::printed(text, reply),
        "compared" => values::compared(text, reply),
        "orders" => values::ordered(text, reply),
        "found" => values::found(text, reply),
        "lines" => printing::faults(text, reply),
        "refusals" => printing::refusals(text, reply),
        "scenario" => printing::scenarios(text, reply),
        "derivation" => printing::derivations(text, reply),
        "tokens" => scripts::spelled(text, reply),
        "aggregated" => reads::aggregated(text, reply),
        "chosen" => reads::chosen(text, reply),
        _ => tell_of_tables(rt, scene, asked, text, reply),
    }
}

fn tell_of_tables<R: Threads + Sync>(
    rt: &R,
    scene: &mut Scene,
    asked: &str,
    text: &str,
    reply: &mut Reply,
) {
    match asked {
        "table" => changes::create_table(&mut scene.known, text, reply),
        "change" => changes::changed(&mut scene.known, text, reply),
        "append" => changes::appended(&mut scene.known, text, reply),
        "held" => held::held(&mut scene.known, text, reply),
        "touched" => held::touched(&mut scene.known, text, reply),
        "base" => joins::based(&scene.known, text, reply),
        _ => tell_of_index(rt, scene, asked, text, reply),
    }
}

fn tell_of_index<R: Threads + Sync>(
    rt: &R,
    scene: &mut Scene,
    asked: &str,
    text: &str,
    reply: &mut Reply,
) {
    match asked {
        "index" => ranges::clear(&mut scene.index, reply),
        "index-many" => ranges::fill(&mut scene.index, text, reply),
        "find" => ranges::find(&scene.index, text, reply),
        "insert" => ranges::insert(&mut scene.index, text, reply),
        "remove" => ranges::remove(&mut scene.index, text, reply),
        "range" => ranges::ranged(&scene.index, text, reply),
        _ => tell_of_store(rt, scene, asked, text, reply),
    }
}

fn tell_of_store<R: Threads + Sync>(
    rt: &R,
    scene: &mut Scene,
    asked: &str,
    text: &str,
    reply: &mut Reply,
) {
    match asked {
        "store" => scene.store.set_input(text, reply),
        "put" => scene.store.put(text, reply),
        "get" => stores::got(&scene.store, text, reply),
        "first-fault" => stores::first_fault(&scene.store, &scene.shape, reply),
        "lent" => stores::lent(&scene.store, text, reply),
        "looked" => stores::looked(text, reply),
        "replay" => replays::replayed(&scene.store, text, reply),
        "replay-many" => replays::replayed_many(reply),
        _ => tell_of_model(rt, scene, asked, text, reply),
    }
}

fn tell_of_model<R: Threads + Sync>(
    rt: &R,
    scene: &mut Scene,
    asked: &str,
    text: &str,
    reply: &mut Reply,
) {
    match asked {
        "model" => scene.front.set(text, reply),
        "reference" => scene.front.add_reference(text, reply),
        "keys" => set_base(&mut scene.shape, text, reply),
        "cells" => set_cells(&mut scene.shape, text, reply),
        "assigned" => set_assigned(&mut scene.shape, text, reply),
        "order" => looks::order(&scene.shape, reply),
        "looks" | "assigns" => looks::asked(scene, asked, text, reply),
        "run" => runs::run(scene, text, reply),
        "run-many" => rounds::run_many(rt, scene, text, reply),
        _ => reply.unread(),
    }
}
