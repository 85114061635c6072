ghost use Rattle.std.specs.Prelude.{◌≡◌, ◌<◌, IsTrue, Some, IfOk, [], ◌∷◌, ◌++◌, length, slice_get};
ghost use Rattle.gate_core.specs.Log.{EndsAt};

use event_class::Event;
use pure_run::Entry;
use routine_kit::Routine;
use std::alloc::Global;
use std::marker::Model;
use std::snapshot::Snapshot;
use surw_base::OutOfMemory;

/// A worker's own list of its events and replies, with the routine that makes them. Each event is what the routine
/// announces after the replies before it.
#[derive(Drop)]
pub struct Log<R: Routine> {
    start: Snapshot<R>,
    routine: R,
    items: Vec<(Event, u64)>,
    room: u32,
}

impl<R: Routine> Model for Log<R> {
    ghost use Rattle.std.specs.Prelude.{vec_capacity};
    ghost use Rattle.gate_core.specs.Log.{LogState, IsLog};

    ghost Value = { LogState R };

    ghost view = { λ l. record { start = l.start.value; now = l.routine; items = l.items.items; room = l.room } };

    ghost invariant = { λ l. IsLog R.Routine (record { start = l.start.value; now = l.routine; items = l.items.items; room = l.room }) (vec_capacity l.items) };
}

impl<R: Routine> Log<R> {
    /// An empty log of a routine, with room for so many events. An error comes only where memory is refused.
    pub fn new(alloc: Global, routine: &R, room: u32) -> Result<Log<R>, OutOfMemory>
        ensures { IfOk result (λ log. log ≡ record { start = routine.now; now = routine.now; items = []; room = room }) }
    {
        let start = Snapshot::of(routine);
        let routine = routine.copy(alloc)?;
        let mut items = Vec::new(alloc);
        items.reserve(room as usize)?;
        Ok(Log {
            start,
            routine,
            items,
            room,
        })
    }

    /// What the routine announces now.
    #[inline(always)]
    pub fn next(&self) -> Option<Event>
        ensures { result ≡ R.announced self.now.now }
    {
        self.routine.announce()
    }

    /// Adds the event that the routine announces with its reply, and tells the routine the reply.
    pub fn push(&mut self, event: Event, reply: u64)
        requires next { R.announced self.old.now ≡ Some event }
        requires room { length self.old.items < self.old.room }
        ensures { self.new ≡ record self.old { now = R.after_reply self.old.now reply; items = self.old.items ++ (event, reply) ∷ [] } }
    {
        self.routine.take(reply);
        self.items.push_reserved((event, reply));
    }

    /// How many events it has.
    pub fn len(&self) -> u32
        ensures { result ≡ length self.now.items }
    {
        self.items.len() as u32
    }

    /// The event and the reply at a place, from 0.
    pub fn at(&self, k: u32) -> (Event, u64)
        requires { k < length self.now.items }
        ensures { slice_get self.now.items k ≡ Some result }
    {
        self.items[k as usize]
    }

    // Adds the event that the routine announces, if any, with this reply, where there is room.
    #[inline(always)]
    pub(crate) fn take(&mut self, event: Option<Event>, reply: u64)
        requires { event ≡ R.announced self.old.now }
        ensures { self.new.start ≡ self.old.start }
    {
        if let Some(event) = event {
            if self.len() < self.room {
                self.push(event, reply);
            }
        }
    }

    // Whether its item at a place is the event and the reply of an entry.
    pub(crate) fn has(&self, place: u32, entry: &Entry) -> bool
        ensures { IsTrue result → slice_get self.now.items place ≡ Some (entry.now.event, entry.now.reply) }
    {
        match self.items.get(place as usize) {
            Some((event, reply)) => *event == entry.event && *reply == entry.reply,
            None => false,
        }
    }

    // Whether it has so many items, and this is what it announces now.
    pub(crate) fn ends_at(&self, items: u32, word: Option<Event>) -> bool
        ensures { IsTrue result → EndsAt R.Routine self.now items word }
    {
        // A look inside tells what is true of every log.
        let _ = &self.start;
        self.len() == items && self.next() == word
    }
}
