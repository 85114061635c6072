ghost use Rattle.std.specs.Prelude.{◌≡◌, ◌≤◌, ◌∷◌, [], ◌+◌, ℕ, List, length, drop, slice_set, IfNone, IfSome, ◌<◌, ◌^◌};
ghost use Rattle.routine_kit.specs.declared.line.Line.{Line};
ghost use Rattle.routine_kit.specs.Steps.{settle, settled, holds, new_steps, steps_announced, steps_after};

use crate::operand::register;
use crate::{Line, Lines, Operand, Routine};
use event_class::Event;
use std::alloc::Global;
use surw_base::{LINES, OutOfMemory, TIMES};

/// A routine that runs a list of lines so many times. It has four registers, which are 0 at first and stay from
/// one time to the next. Lines that announce nothing are done at once when they are reached.
#[derive(Debug, Drop)]
pub struct Steps {
    lines: Lines,
    // How many times the list is run yet, this time with them.
    times: u16,
    // The place of the event line that is announced.
    place: usize,
    registers: [u64; 4],
}

impl Steps {
    /// A routine that runs the lines so many times.
    pub fn new(lines: Lines, times: u16) -> Steps
        requires some { 1 ≤ times }
        requires few { times ≤ TIMES }
        ensures { result ≡ new_steps lines times }
    {
        let mut registers = [0; 4];
        let (times, place) = settled(lines.as_slice(), times, 0, &mut registers);
        Steps {
            lines,
            times,
            place,
            registers,
        }
    }
}

impl Routine for Steps {
    ghost announced = { steps_announced };

    ghost after_reply = { steps_after };

    #[inline(always)]
    fn announce(&self) -> Option<Event> {
        if self.times == 0 {
            return None;
        }
        match self.lines.as_slice().get(self.place) {
            Some(Line::Act { shape, .. }) => Some(shape.event(&self.registers)),
            _ => None,
        }
    }

    #[inline(always)]
    fn take(&mut self, reply: u64) {
        let lines = self.lines.as_slice();
        if let Some(
            Line::Act {
                into: Some(reg),
                ..
            },
        ) = lines.get(self.place)
        {
            set(&mut self.registers, *reg, reply);
        }
        let (times, place) = settled(lines, self.times, self.place + 1, &mut self.registers);
        self.times = times;
        self.place = place;
    }

    fn copy(&self, alloc: Global) -> Result<Steps, OutOfMemory> {
        let lines = self.lines.copy(alloc)?;
        Ok(Steps {
            lines,
            times: self.times,
            place: self.place,
            registers: self.registers,
        })
    }
}

// Goes on from a place to the next event line, through as many rounds as are left. Gives the times left and the
// place, both 0 where none is left.
#[inline(always)]
fn settled(lines: &[Line], times: u16, place: usize, registers: &mut [u64]) -> (u16, usize)
    requires { length lines.now ≤ LINES }
    ensures { record { lines = lines.now; times = result.0; place = result.1; registers = registers.new } ≡ settled lines.now times place registers.old }
{
    let mut place = place;
    let mut left = times;
    while left > 0 {
        place = settle(lines, place, registers);
        if place < lines.len() {
            return (left, place);
        }
        left -= 1;
        place = 0;
    }
    (0, 0)
}

// Does the lines from a place on that announce nothing. Gives the place of the next event line, or the end.
fn settle(lines: &[Line], place: usize, registers: &mut [u64]) -> usize
    requires { length lines.now ≤ LINES }
    ensures { record { place = result; registers = registers.new } ≡ settle place (drop place lines.now) 0 registers.old }
{
    let mut place = place;
    while place < lines.len() {
        let line = &lines[place];
        match pass(line, registers) {
            None => break,
            Some(over) => place = lines.len().min(place + 1 + over),
        }
    }
    place
}

// Does a line that announces nothing, and gives how many of the next lines are passed over. None at an event line.
#[tactic(auto, unfolding(crate::specs::Steps::settle))]
fn pass(line: &Line, registers: &mut [u64]) -> Option<usize>
    ensures stands { IfNone result ((place : ℕ) (rest : List Line) →
        settle place (line.now ∷ rest) 0 registers.old ≡ record { place = place; registers = registers.new }) }
    ensures passes { IfSome result (λ over. (place : ℕ) (rest : List Line) →
        settle place (line.now ∷ rest) 0 registers.old ≡ settle (place + 1) rest over registers.new) }
    ensures few { IfSome result (λ over. over < 2 ^ 16) }
{
    match *line {
        Line::Act { .. } => None,
        Line::Plus { reg, by } => {
            let sum = register(registers, reg).wrapping_add(by.value(registers));
            set(registers, reg, sum);
            Some(0)
        }
        Line::Skip {
            over,
            reg,
            equal,
            with,
        } => {
            let passes = holds(registers, reg, equal, with);
            Some(if passes { usize::from(over) } else { 0 })
        }
    }
}

// Whether the comparison of a skip holds.
fn holds(registers: &[u64], reg: u8, equal: bool, with: Operand) -> bool
    ensures { result ≡ holds registers.now reg equal with }
{
    let same = register(registers, reg) == with.value(registers);
    if equal { same } else { !same }
}

// Sets a register, if it is there.
#[tactic(auto, using(std::proofs::lemmas::List::set_past))]
fn set(registers: &mut [u64], reg: u8, value: u64)
    ensures { registers.new ≡ slice_set registers.old reg value }
{
    let reg = usize::from(reg);
    if reg < registers.len() {
        registers[reg] = value;
    }
}

#[cfg(test)]
mod tests;
