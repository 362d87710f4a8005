//! Lines with numbers at the edges: faults and refusals, and what comparisons and derivations print.

use crate::answers::Reply;
use crate::texts::{cut, key, name, number_of, slot};
use mq_ir::{Answer, Compared, Derivation, DerivationStep};
use mq_render::{answer_text, compared_text, derivation_text, refusal_text, refusal_words};
use mq_values::{FaultKind, Items, Key, Memory, QueryFault, Refused, Words};
use std::alloc::Global;

// What is written behind two bytes that stand in the buffer before it.
fn begun(alloc: Global) -> Reply {
    let mut out = Reply::new(alloc);
    out.add("> ");
    out
}

// Shows what was written.
fn show(out: &Reply, reply: &mut Reply) {
    reply.bytes(&out.text);
    reply.heed(out);
}

/// A number and two keys with tabs between them: a fault with this rule, partition and cell, and what LOAD is refused for with
/// this line and row.
pub(crate) fn faults(text: &str, reply: &mut Reply) {
    let (number, rest) = cut(text, "\t", reply);
    let (partition, cell) = cut(rest, "\t", reply);
    let number = number_of(number, reply);
    let fault = QueryFault {
        kind: FaultKind::SelfOrder,
        rule: number,
        partition: key(partition, reply),
        cell: key(cell, reply),
    };
    let mut out = begun(reply.alloc);
    let done = answer_text(&Answer::Fault(fault), &mut out.text);
    out.note(done);
    add_line(number, &Refused::NoFile, &mut out);
    add_line(number, &Refused::FileTooLong, &mut out);
    add_line(number, &Refused::LoadHeader, &mut out);
    add_line(number, &Refused::LoadRow(number), &mut out);
    show(&out, reply);
}

fn add_line(line: u32, refused: &Refused, out: &mut Reply) {
    let done = refusal_text(line, refused, &mut out.text);
    out.note(done);
}

/// The same: what is refused for the sake of a block with this line, and for want of a partition and a cell; each by its
/// words alone, and behind a sign with its line.
pub(crate) fn refusals(text: &str, reply: &mut Reply) {
    let (number, rest) = cut(text, "\t", reply);
    let (partition, cell) = cut(rest, "\t", reply);
    let number = number_of(number, reply);
    let mut out = begun(reply.alloc);
    add_refusal(number, Refused::BlockOpen(number), &mut out);
    add_refusal(number, Refused::InBlock(number), &mut out);
    add_refusal(number, Refused::NoBlock, &mut out);
    add_refusal(number, Refused::BlockBroken(number), &mut out);
    let partition = key(partition, reply);
    add_refusal(number, Refused::NoPartition(partition), &mut out);
    let cell = key(cell, reply);
    add_refusal(number, Refused::NoCell(cell), &mut out);
    show(&out, reply);
}

fn add_refusal(line: u32, refused: Refused, out: &mut Reply) {
    let done = refusal_words(&refused, &mut out.text);
    out.note(done);
    out.add(" = ");
    add_line(line, &refused, out);
}

/// A name, a number and a key with tabs between them: what a comparison says of the scenario of this name where its change of
/// this number repeats the key, where the answer is the key as a row, and where it is a fault of this rule and partition.
pub(crate) fn scenarios(text: &str, reply: &mut Reply) {
    let (word, rest) = cut(text, "\t", reply);
    let (number, one) = cut(rest, "\t", reply);
    let number = number_of(number, reply);
    if let Some(name) = reply.made(Words::new(reply.alloc, word)) {
        let mut out = begun(reply.alloc);
        add_compared(&name, stop_of(number, one, reply), &mut out);
        add_compared(&name, row_of(one, reply), &mut out);
        add_compared(&name, fault_of(number, one, reply), &mut out);
        show(&out, reply);
    }
}

fn stop_of(number: u32, text: &str, reply: &mut Reply) -> Compared {
    Compared::Stopped(number, Refused::DuplicateKey(key(text, reply)))
}

fn row_of(text: &str, reply: &mut Reply) -> Compared {
    let mut rows = Items::new(reply.alloc);
    let row = key(text, reply);
    reply.note(rows.push(row));
    Compared::Shown(Answer::Rows(rows))
}

fn fault_of(rule: u32, text: &str, reply: &mut Reply) -> Compared {
    Compared::Shown(Answer::Fault(QueryFault {
        kind: FaultKind::Cycle,
        rule,
        partition: key(text, reply),
        cell: Key::empty(),
    }))
}

fn add_compared(name: &Words, compared: Compared, out: &mut Reply) {
    let done = compared_text(name, &compared, &mut out.text);
    out.note(done);
}

/// The names of measures with blanks between them, and behind a tab steps with semicolons between them: the lines of the
/// derivation.
pub(crate) fn derivations(text: &str, reply: &mut Reply) {
    let (words, steps) = cut(text, "\t", reply);
    let derivation = Derivation {
        steps: steps_of(steps, reply),
    };
    let mut out = begun(reply.alloc);
    if let Some(names) = reply.made(names_of(reply.alloc, words)) {
        let done = derivation_text(&names, &derivation, &mut out.text);
        out.note(done);
    }
    show(&out, reply);
}

fn names_of(alloc: Global, words: &str) -> Result<Vec<Words>, Memory> {
    let mut names = Vec::new(alloc);
    for word in words.split(' ') {
        names.push(Words::new(alloc, word)?)?;
    }
    Ok(names)
}

fn steps_of(text: &str, reply: &mut Reply) -> Items<DerivationStep> {
    let mut steps = Items::new(reply.alloc);
    for one in text.split(" ; ") {
        let step = step_of(one, reply);
        reply.note(steps.push(step));
    }
    steps
}

// A measure of a cell, what stands there, and its rule, or a dash where it has none.
fn step_of(text: &str, reply: &mut Reply) -> DerivationStep {
    let (place, rest) = cut(text, " = ", reply);
    let (word, rule) = cut(rest, " by ", reply);
    let rule = rule_of(rule, reply);
    DerivationStep {
        name: name(place, reply),
        rule,
        slot: slot(word, reply),
    }
}

fn rule_of(word: &str, reply: &mut Reply) -> Option<u32> {
    match word {
        "-" => None,
        _ => Some(number_of(word, reply)),
    }
}
