//! A page cache: frames that hold pages of a disk, each frame free, clean or dirty.
#![tactic(auto)]

mod cache;
mod content;
mod held;
mod listed;
mod vec16;

pub use cache::PageCache;
pub use content::Content;
pub use held::Held;
pub use vec16::Vec16;
