//! Files, output and command words, by the bytes that they tell and the faults that they count.
//! It stands on `rdf_values` alone; everything above reads and writes through its two traits.
#![tactic(auto)]

mod call_list;
mod dir_shelf;
mod file_parts;
mod gate;
mod memory_shelf;
mod memory_sink;
mod shelf;
mod sink;
mod std_answers;
mod whole;
mod word_list;

pub use crate::dir_shelf::DirShelf;
pub use crate::file_parts::FileParts;
pub use crate::gate::{Gate, Host, OpenGate};
pub use crate::memory_shelf::MemoryShelf;
pub use crate::memory_sink::MemorySink;
pub use crate::shelf::{Failed, Shelf, TurnStop, Turns};
pub use crate::sink::{Sink, StdSink};
pub use crate::whole::{ReadRefusal, one_part, read_parts, read_whole, write_whole};
pub use crate::word_list::WordList;

#[cfg(test)]
mod tests;
