//! A log device: slots that are reserved one after another and filled once, and a mark that only rises.
#![tactic(auto)]

mod log;

pub use log::WalLog;
