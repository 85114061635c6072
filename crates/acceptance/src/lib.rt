//! Tests that cross the crates: whole command lines over shelves and sinks in memory. What a file makes the program
//! print stands in the folder `examples`.
#![tactic(auto)]

#[cfg(test)]
mod command;
#[cfg(test)]
mod devices;
#[cfg(test)]
mod draw_lists;
#[cfg(test)]
mod lost_update;
#[cfg(test)]
mod saved;
#[cfg(test)]
mod threads;
