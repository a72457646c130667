//! What a run sees of the outside: files that are opened by name and read in pieces, and sinks that take bytes; and two counters.
//!
//! The contract in a sentence: a trait says what a folder of files or a sink stands for and what each call does to that,
//! a failure comes only where the object's own count of faults rose, which no other answer changes, and each
//! implementation here is proved against it. It stands on std alone.
#![tactic(auto)]

mod counters;
mod disk;
mod faults;
mod files;
mod memory_files;
mod memory_sinks;
mod named;
mod opened;
mod reading;
mod sink;

pub use counters::{Budget, Steps};
pub use disk::{DiskFile, DiskFiles};
pub use files::{Files, Trouble};
pub use memory_files::{CalmFiles, MemoryFiles};
pub use memory_sinks::{CalmSink, MemorySink};
pub use sink::{Sink, SinkFail, StreamSink};
