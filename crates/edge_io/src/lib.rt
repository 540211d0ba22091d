//! The outside as the program sees it: sources and sinks of bytes, key files and entropy, which count their
//! faults, and the lines of a source.
#![tactic(auto)]

mod calls;
mod entropy;
mod errors;
mod key_files;
mod line_reader;
mod memory;
mod memory_keys;
mod sink;
mod source;
mod std_streams;
mod system_files;

pub use entropy::Entropy;
pub use errors::{Failed, FetchError, LineError, NoMemory};
pub use key_files::{KeyFiles, MAX_KEY_FILE};
pub use line_reader::{LineReader, MAX_LINE};
pub use memory::{MemSink, MemSource};
pub use memory_keys::{MemEntropy, MemKeyFiles};
pub use sink::Sink;
pub use source::Source;
pub use std_streams::{Reading, Writing};
pub use system_files::{SystemEntropy, SystemKeyFiles};

#[cfg(test)]
mod tests;
