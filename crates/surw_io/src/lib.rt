//! The outside as SURW sees it: a shelf of named files, which are read and created, a sink for what is printed,
//! and the three loops over them.
//!
//! A device may tell what it holds (`MemShelf`, `MemSink`) or nothing (`FileShelf`, `StdSink`), and a
//! `WriteSink` tells what its writer tells. Either way it counts its faults, and a call fails only where that
//! count rose, or where there is no such file. A shelf counts those of reading and those of writing apart, and
//! its two halves leave each other alone.
#![tactic(auto)]

mod calls;
mod failed;
mod file_shelf;
mod made_file;
mod mem_shelf;
mod mem_sink;
mod safe_shelf;
mod safe_sink;
mod shelf;
mod sink;
mod std_sink;
mod steady_write;
mod whole_file;
mod write_sink;

pub use failed::Failed;
pub use file_shelf::FileShelf;
pub use mem_shelf::MemShelf;
pub use mem_sink::MemSink;
pub use safe_shelf::SafeShelf;
pub use safe_sink::SafeSink;
pub use shelf::Shelf;
pub use sink::{Sink, put_all};
pub use std_sink::StdSink;
pub use steady_write::SteadyWrite;
pub use whole_file::{FetchFault, fetch, put_file};
pub use write_sink::WriteSink;
