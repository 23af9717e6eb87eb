//! The outside, as traits: a folder of files, a source that is read once and a sink that is written
//! to. Each object may tell the bytes that it holds, and counts its faults, so that contracts say
//! which bytes came and went, and that a call fails only where a count rose. With implementations in
//! memory, whose failures are chosen, and adapters round the runtime's files, readers and writers.
#![tactic(auto)]

mod buffer;
mod counting;
mod counts;
mod dir;
mod memory;
mod outside;
mod sink;
mod stream;
mod sure;
mod writing;

pub use buffer::zeros;
pub use counting::CountSink;
pub use dir::DirFolder;
pub use memory::{ListFolder, ListSource};
pub use outside::{Failed, Folder, Got, Sink, Source};
pub use sink::{ListSink, SINK_ROOM};
pub use stream::{StreamSink, StreamSource};
pub use sure::{SureFolder, SureSource};
pub use writing::{WriteFault, write_all};
