//! What a thread can do to the shared world: events, their classes and text, and selections of events.
#![tactic(auto)]

mod event;
mod event_text;
mod pickable;
mod selection;

pub use event::{Class, Event};
pub use event_text::{EVENT_ROOM, push_event, put_event, read_event};
pub use pickable::{Pickable, read_pickable};
pub use selection::Selection;
