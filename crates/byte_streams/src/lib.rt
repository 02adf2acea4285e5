//! Sources and sinks of bytes that may fail and count their faults, reading to the end, and writing to the last byte.
//!
//! `Source` and `Sink` are what a program reads from and writes to; `ReaderSource` and `WriterSink` are those over std's streams, `MemSource`
//! and `MemSink` those in memory that fail where they are told to, `SureSource` and `SureSink` those that never fail.
#![tactic(auto)]

mod adapters;
mod memory;
mod outside;
mod sure;
mod transfer;

pub use adapters::{ReaderSource, WriterSink};
pub use memory::{MemSink, MemSource};
pub use outside::{Failed, Sink, SinkError, Source};
pub use sure::{SureSink, SureSource};
pub use transfer::{MAX_READ, ReadError, read_all, write_all};
