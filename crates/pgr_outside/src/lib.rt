//! Input and output by stores and sinks: whole files in, whole texts out, each failure with its cause.
//!
//! A [`Store`] holds named files and is read in pieces; a [`Sink`] takes bytes in pieces. Each may tell what
//! it holds, and keeps a count of faults that never falls. [`read_file`] reads a file whole, [`write_all`]
//! writes bytes whole, and [`write_parts`] a text as a list of [`Part`]s, over any of them; [`gather`] and its kin
//! hand texts to a sink in large pieces. [`MemoryStore`] and [`MemorySink`] are in memory, and fail at chosen calls.
//! Proved: a file that was read is the store's whole content (`whole`), and is refused as too long only
//! where it is longer than the limit (`too_long`); what was written is all the bytes (`all`), or a front of
//! them after a failure (`front`); a failure comes only where a count of faults rose (`failed`); reading
//! changes no content (`content`). Not proved: time.
#![tactic(auto)]

mod fault;
mod gathering;
mod listed;
mod memory_sink;
mod memory_store;
mod part;
mod reading;
mod side;
mod sink;
mod store;
#[cfg(test)]
mod tests;
mod text;
mod writing;

pub use fault::{Failed, NoMemory, StoreFault};
pub use gathering::{gather, gather_part, hand_on, write_parts};
pub use listed::Listed;
pub use memory_sink::MemorySink;
pub use memory_store::MemoryStore;
pub use part::Part;
pub use reading::{ReadRefused, read_file};
pub use side::Side;
pub use sink::Sink;
pub use store::Store;
pub use text::Text;
pub use writing::write_all;
