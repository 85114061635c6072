ghost use Rattle.std.specs.Prelude.{◌≡◌, ◌<◌, ◌≤◌, Some, IfOk, vec_len, vec_capacity, []};
ghost use Rattle.surw_base.specs.declared.limits.TheConstants.{THREADS};
ghost use Rattle.turn_table.specs.Rule.{first_view, numbers_of, with_number, without_right, fresh_view};
ghost use Rattle.turn_table.specs.Seat.{SeatsFrom, AreFresh};

use crate::pass::holder_of;
use crate::rule::{Numbers, Right, TurnRule};
use crate::{Rounded, TurnSeat, View};
use atomic_table::{Seat, Table};
use std::alloc::Global;
use std::marker::Model;
use std::thread::Parker;
use surw_base::{OutOfMemory, ThreadNo};

// How often a seat peeks at the turn word before its thread sleeps, where no other number is set. It takes some 15
// microseconds, a few times as long as to put a thread to sleep and wake it.
const PEEKS: u32 = 1000;

/// A state that threads have in turn. A word names the seat that is next, as `32 * round + holder`; the holder 31 means
/// that no round follows. The state lies in a slot, from which only that seat can take it.
#[derive(Drop)]
pub struct TurnTable<T: Rounded> {
    pub(crate) table: Table<Option<T>, View, (), TurnRule, Global>,
    pub(crate) places: Vec<Parker>,
    pub(crate) peeks: u32,
    seats: u8,
}

impl<T: Rounded> Model for TurnTable<T> {
    ghost use Rattle.std.specs.Prelude.{◌≡◌};
    ghost use Rattle.turn_table.specs.Table.{TableState};

    ghost Value = { TableState };

    ghost view = { λ t. record { id = t.table.shared.table_id; seats = t.seats } };

    ghost invariant = { λ t. (t.table.shared.table_id.words ≡ 2)
        × (t.table.shared.table_id.slots ≡ 1) };
}

impl<T: Rounded> TurnTable<T> {
    /// A table of this state, with a seat for each thread below `seats`. An error comes only where memory is refused.
    pub fn new(
        alloc: Global,
        state: T,
        seats: u8,
    ) -> Result<(TurnTable<T>, Vec<TurnSeat<T>>), OutOfMemory>
        requires round { T.round_of state ≡ 0 }
        requires seats { (0 < seats) × (seats ≤ THREADS) }
        ensures count { IfOk result (λ made. (made.0.seats ≡ seats) × (vec_len made.1 ≡ seats)) }
        ensures seats { IfOk result (λ made. SeatsFrom made.0.id 0 made.1.items) }
        ensures fresh { IfOk result (λ made. AreFresh made.1.items) }
    {
        let holder = holder_of(state.granted());
        let mut slots = Vec::new(alloc);
        slots.push(Some(state))?;
        let list = Vec::with_capacity(alloc, usize::from(seats))?;
        let places = places_of(alloc, seats)?;
        let Ok((table, first)) = Table::new(alloc, &[holder, 0], slots, &()) else {
            return Err(OutOfMemory);
        };
        let table = TurnTable {
            table,
            places,
            peeks: PEEKS,
            seats,
        };
        let list = table.seat_all(first, list);
        Ok((table, list))
    }

    /// Sets how often a seat that isn't named peeks at the turn word before its thread sleeps; 1000, where this isn't
    /// called. Where there are fewer processors than threads 0 is best, since whoever is named may want the processor.
    pub fn set_peeks(&mut self, peeks: u32)
        ensures { self.new ≡ self.old }
    {
        self.peeks = peeks;
    }

    // All seats, split off the first one in the order of their numbers.
    fn seat_all(&self, first: Seat<Option<T>, View>, mut list: Vec<TurnSeat<T>>) -> Vec<TurnSeat<T>>
        requires first { (first.table_id ≡ self.now.id) × (first.me ≡ (first_view, [])) }
        requires seats { (0 < self.now.seats) × (self.now.seats ≤ THREADS) }
        requires list { (list.items ≡ []) × (self.now.seats ≤ vec_capacity list) }
        ensures count { vec_len result ≡ self.now.seats }
        ensures seats { SeatsFrom self.now.id 0 result.items }
        ensures fresh { AreFresh result.items }
    {
        let mut last = first;
        for number in 0..self.seats - 1 {
            self.give_number(&mut last, number);
            let next = self.split_right(&mut last);
            list.push_reserved(TurnSeat {
                seat: last,
                number: ThreadNo::new(number).unwrap(),
            });
            last = next;
        }
        let number = self.seats - 1;
        self.give_number(&mut last, number);
        list.push_reserved(TurnSeat {
            seat: last,
            number: ThreadNo::new(number).unwrap(),
        });
        list
    }

    // Gives a seat its number.
    fn give_number(&self, seat: &mut Seat<Option<T>, View>, number: u8)
        requires table { seat.old.table_id ≡ self.now.id }
        requires seat { (seat.old.me.1 ≡ []) × (numbers_of seat.old.me.0 ≡ []) }
        requires right { (seat.old.me.0.right ≡ Some number) × (number < 31) }
        ensures table { seat.new.table_id ≡ seat.old.table_id }
        ensures seat { (seat.new.me.1 ≡ []) × (seat.new.me.0 ≡ with_number seat.old.me.0 number) }
    {
        self.table.shared.fetch_add::<Numbers>(seat, 1, 1);
    }

    // A new seat, which has the right to number in the place of this one.
    fn split_right(&self, seat: &mut Seat<Option<T>, View>) -> Seat<Option<T>, View>
        requires { seat.old.table_id ≡ self.now.id }
        ensures table { (seat.new.table_id ≡ seat.old.table_id) × (result.table_id ≡ seat.old.table_id) }
        ensures seat { seat.new.me ≡ (without_right seat.old.me.0, seat.old.me.1) }
        ensures made { result.me ≡ (fresh_view seat.old.me.0, []) }
    {
        self.table.shared.split_seat::<Right>(seat)
    }
}

// A place to sleep at for each seat.
fn places_of(alloc: Global, seats: u8) -> Result<Vec<Parker>, OutOfMemory> {
    let mut places = Vec::new(alloc);
    for _place in 0..seats {
        places.push(Parker::new())?;
    }
    Ok(places)
}
