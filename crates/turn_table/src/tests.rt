ghost use Rattle.std.specs.Prelude.{◌≡◌, ◌+◌, ◌<◌, ◌≤◌, false, true, None};
ghost use Rattle.turn_table.specs.Seat.{RestsAgain};
ghost use Rattle.turn_table.specs.Rule.{after_pass};
ghost use Rattle.turn_table.specs.Turn.{HoldsTurn};

use super::*;
use std::sync::Wait;
use std::test::Fail;
use std::thread;
use surw_base::ThreadNo;

// Rounds that are counted, with so many left.
#[derive(Drop)]
struct Count {
    round: u32,
    left: u32,
    to: Option<ThreadNo>,
    ghost few: { round + left ≤ 1000 },
    ghost ends: { left ≡ 0 → to ≡ None },
}

impl Rounded for Count {
    ghost round_of = { λ c. c.round };

    ghost granted_of = { λ c. c.to };

    fn round(&self) -> u32 {
        self.round
    }

    fn granted(&self) -> Option<ThreadNo> {
        self.to
    }
}

impl Count {
    // Has one round more, and grants this thread the next, or none after the last one.
    fn next(&mut self, to: Option<ThreadNo>)
        requires { 0 < self.old.left }
        ensures { self.new.round ≡ self.old.round + 1 }
    {
        let left = self.left - 1;
        let to = if left == 0 { None } else { to };
        *self = Count {
            round: self.round + 1,
            left,
            to,
        };
    }
}

// Counts this turn's round, and passes the turn on; the number of the round.
fn play(
    table: &TurnTable<Count>,
    seat: &mut TurnSeat<Count>,
    mut turn: Turn<Count>,
    to: Option<ThreadNo>,
) -> u32
    requires table { seat.old.table ≡ table.now.id }
    requires given { HoldsTurn seat.old.view turn }
    requires round { (turn.state.round ≡ turn.round) × (0 < turn.state.left) }
    ensures table { seat.new.table ≡ seat.old.table }
    ensures rests { seat.new.view ≡ after_pass seat.old.view }
{
    let round = turn.round();
    turn.state().next(to);
    let to = turn.state().granted();
    table.pass(seat, turn, to);
    round
}

// The round of the seat's turn, which is passed on, or 99 where it has none.
fn tried(table: &TurnTable<Count>, seat: &mut TurnSeat<Count>, to: Option<ThreadNo>) -> u32
    requires table { seat.old.table ≡ table.now.id }
    requires rests { seat.old.view.turn ≡ false }
    ensures { RestsAgain seat.old seat.new }
{
    match table.try_turn(seat) {
        Some(turn) => play(table, seat, turn, to),
        None => 99,
    }
}

// What a look finds: 0 a turn, which is passed to none, 1 another seat's turn, 2 the end.
fn looked(table: &TurnTable<Count>, seat: &mut TurnSeat<Count>) -> u8
    requires table { seat.old.table ≡ table.now.id }
    requires rests { seat.old.view.turn ≡ false }
    ensures { RestsAgain seat.old seat.new }
{
    match table.look(seat) {
        Look::Mine(turn) => {
            play(table, seat, turn, None);
            0
        }
        Look::Other => 1,
        Look::Over => 2,
    }
}

// Two rounds, the first of them for thread 0.
fn two_rounds() -> Count
    ensures { result.round ≡ 0 }
{
    Count {
        round: 0,
        left: 2,
        to: ThreadNo::new(0),
    }
}

#[test]
fn a_turn_goes_from_seat_to_seat(rt: HostRuntime) -> Result<(), Fail> {
    let (table, mut seats) = TurnTable::new(rt.alloc(), two_rounds(), 2)?;
    let mut second = seats.pop().unwrap();
    let mut first = seats.pop().unwrap();
    assert_eq!(rt; looked(&table, &mut second), 1);
    assert_eq!(rt; tried(&table, &mut second, None), 99);
    assert_eq!(rt; tried(&table, &mut first, ThreadNo::new(1)), 0);
    assert_eq!(rt; tried(&table, &mut first, ThreadNo::new(1)), 99);
    assert_eq!(rt; tried(&table, &mut second, None), 1);
    assert_eq!(rt; looked(&table, &mut first), 2);
    assert_eq!(rt; looked(&table, &mut second), 2);
    assert_eq!(rt; tried(&table, &mut first, None), 99);
    assert_eq!(rt; tried(&table, &mut second, None), 99);
    seats.push(first)?;
    seats.push(second)?;
    assert_eq!(rt; table.close(seats).rounds, 2);
    Ok(())
}

// Takes each turn of a seat, and grants the other of two threads the next round, until no round follows.
fn work<W: Wait>(rt: &W, table: &TurnTable<Count>, mut seat: TurnSeat<Count>) -> TurnSeat<Count>
    requires table { seat.table ≡ table.now.id }
    requires rests { seat.view.turn ≡ false }
    ensures { RestsAgain seat result }
{
    for _ in rt.forever() {
        match table.wait_turn(rt, &mut seat) {
            TurnAnswer::Mine(turn) => {
                let to = ThreadNo::new((seat.thread().get() + 1) % 2);
                play(table, &mut seat, turn, to);
            }
            TurnAnswer::Over => return seat,
        }
    }
    unreachable!()
}

#[test]
fn threads_wait_for_their_turns(rt: HostRuntime) -> Result<(), Fail> {
    let start = Count {
        round: 0,
        left: 50,
        to: ThreadNo::new(1),
    };
    let (mut table, mut seats) = TurnTable::new(rt.alloc(), start, 2)?;
    table.set_peeks(1);
    let second = seats.pop().unwrap();
    let first = seats.pop().unwrap();
    let (first, second) = thread::join(
        &rt,
        || work(&rt, &table, first),
        || work(&rt, &table, second),
    );
    seats.push(first)?;
    seats.push(second)?;
    let closed = table.close(seats);
    assert_eq!(rt; closed.rounds, 50);
    assert_eq!(rt; closed.state.left, 0);
    Ok(())
}
