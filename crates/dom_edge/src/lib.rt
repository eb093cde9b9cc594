//! The edge of the program: folders whose files it reads, and sinks that it writes to.
#![tactic(auto)]

mod buffer;
mod call_plan;
mod copying;
mod disk_folder;
mod failed;
mod folder;
mod mem_folder;
mod mem_sink;
mod never_folder;
mod never_sink;
mod read_error;
mod reading;
mod sink;
mod std_sink;
mod stored_files;
#[cfg(test)]
mod tests;
mod writing;

pub use disk_folder::DiskFolder;
pub use failed::Failed;
pub use folder::Folder;
pub use mem_folder::MemFolder;
pub use mem_sink::MemSink;
pub use never_folder::NeverFolder;
pub use never_sink::NeverSink;
pub use read_error::ReadError;
pub use reading::read_whole;
pub use sink::Sink;
pub use std::alloc::AllocError as NoMemory;
pub use std_sink::StdSink;
pub use writing::write_whole;
