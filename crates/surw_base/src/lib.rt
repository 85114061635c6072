//! What every crate of SURW shares: thread numbers, the limits and the text of numbers, alone and in lines.
#![tactic(auto)]

mod item;
mod limits;
mod list;
mod memory;
mod number;
mod thread_no;

pub use item::{push_item, read_item};
pub use limits::{
    CELLS, DEPTH, FILE_LIMIT, FRAMES, LINES, LOCKS, MONITORS, PAGES, SAVED_LIMIT, SLOTS, STEPS,
    THREADS, TIMES,
};
pub use list::{ListFault, push_list, push_list_line, read_list};
pub use memory::OutOfMemory;
pub use number::{digits_of, push_number, read_number, read_whole_number};
pub use thread_no::ThreadNo;
