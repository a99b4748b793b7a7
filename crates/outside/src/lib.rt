//! What a program is handed from outside: a source of bytes, a sink of bytes, a disk and a gate.
//!
//! Each of them is a trait, so a program over it is proved once, for every object that it may be handed.
//!
//! **What is known.** What an object holds is a ghost member, that is, a value which contracts see and no code has. It is
//! `Some` where the object reports its content, as one in memory does, and `None` where it doesn't, as one over a real
//! stream. A clause on content speaks of the first kind of object and says nothing of the second: it holds *where the
//! content is known*. What is known stays known.
//!
//! **Faults.** A source, a sink and a disk each count their faults. The count never falls, and a call answers [`Failed`]
//! only where the count rose in it. So generic code, which can't raise the count by itself, can't blame the object for a
//! failure of its own. A count that stands at the last number of 64 bits stays there, and counts as risen.
#![tactic(auto)]

mod calls;
mod disk;
mod disk_entry;
mod disk_log;
mod disk_stop;
mod entry;
mod faults;
mod file_pair;
mod file_sink;
mod file_source;
mod gate;
mod memory_disk;
mod memory_sink;
mod memory_source;
mod pieces;
mod recorded;
mod recording;
mod replay;
mod side;
mod sink;
mod source;
mod standard_streams;
mod stream_sink;
mod stream_source;
mod sure;
mod sure_disk;

pub use disk::{Disk, NullDisk};
pub use faults::Failed;
pub use file_pair::FilePair;
pub use file_sink::FileSink;
pub use file_source::FileSource;
pub use gate::{Gate, OpenGate};
pub use memory_disk::MemoryDisk;
pub use memory_sink::MemorySink;
pub use memory_source::MemorySource;
pub use side::Side;
pub use sink::Sink;
pub use source::Source;
pub use stream_sink::StreamSink;
pub use stream_source::StreamSource;
pub use sure::{SureSink, SureSource};
pub use sure_disk::SureDisk;
