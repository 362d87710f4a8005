//! In go a source of bytes, a shelf of files and a sink for the answer, each counting its faults.
//! Out come whole sources, files and writes, or the cause why not.
//! They meet the definitions of specs/Causes, specs/Progress and specs/Files.
#![tactic(auto)]

mod calls;
mod faults;
mod gates;
mod shelves;
mod sinks;
mod sources;
mod transfers;

pub use faults::{Failed, IoFault, ReadFault};
pub use gates::{Gate, OpenGate};
pub use shelves::{Fetched, FolderShelf, MapShelf, Shelf};
pub use sinks::{Sink, VecSink, WriterSink};
pub use sources::{BytesSource, ReaderSource, Source};
pub use transfers::{READ_SIZE, read_all, write_all};

#[cfg(test)]
mod tests;
