//! Draws from a bag of counts, and what they mean: an order of threads with an offset for each place.
//!
//! The bag of some counts lists thread 0 as often as its count says, then thread 1, and so on. A draw
//! names a place in the bag: the thread there, and its offset, which is the number of the same thread's
//! places before it. After each draw that thread's count is one lower. So a list of draws names an order
//! of threads and, for each thread, a list of offsets; and the way back is `draws_of`.
#![tactic(auto)]

mod joining;
pub mod laws;
mod naming;
mod place;
mod split;
mod weights;

pub use joining::{JoinFault, draws_of};
pub use naming::{SplitFault, order_of};
pub use place::{join_one, split_one};
pub use split::Split;
pub use weights::Weights;
