//! The shared world that threads act on: cells, locks, a page cache with its disk, a log device and checks, what
//! each event replies and changes, and monitors.
#![tactic(auto)]

mod cells;
mod locks;
mod monitor;
mod size;
mod world;

pub use monitor::Monitor;
pub use size::WorldSize;
pub use world::World;
