ghost use Rattle.std.specs.Prelude.{◌≡◌, ◌<◌, ◌≤◌, IfOk, length, is_none};
ghost use Rattle.std.specs.List.{count_by};
ghost use Rattle.surw_base.specs.declared.limits.TheConstants.{SLOTS};
ghost use Rattle.wal_log.specs.Log.{new_log, held_in, is_whole, IsSound};
ghost use Rattle.wal_log.specs.Events.{reserve, put, mark, durable};

use std::alloc::Global;
use std::marker::Model;
use surw_base::OutOfMemory;

/// Slots, numbered from 1, and a mark. A contract sees a record of their number, the reserved ones and the mark.
#[derive(Debug, Drop)]
pub struct WalLog {
    slots: u16,
    // With room for all slots.
    reserved: Vec<Option<u64>>,
    mark: u16,
    // How many slots from 1 to the mark are empty.
    empty: u16,
}

impl Model for WalLog {
    ghost use Rattle.std.specs.Prelude.{vec_capacity};
    ghost use Rattle.wal_log.specs.Log.{LogState, log_of, IsKept};

    ghost Value = { LogState };

    ghost view = { λ log. log_of log.slots log.reserved.items log.mark };

    ghost invariant = { λ log. IsKept (vec_capacity log.reserved) log.empty (log_of log.slots log.reserved.items log.mark) };
}

impl WalLog {
    /// So many slots, none of them reserved, and the mark 0. An error comes only where memory is refused. No other
    /// call takes memory.
    pub fn new(alloc: Global, slots: u16) -> Result<WalLog, OutOfMemory>
        requires { slots ≤ SLOTS }
        ensures { IfOk result (λ log. log ≡ new_log slots) }
    {
        Ok(WalLog {
            slots,
            reserved: Vec::with_capacity(alloc, usize::from(slots))?,
            mark: 0,
            empty: 0,
        })
    }

    /// Reserves the next slot, which is empty, and replies its number. Replies 0 exactly where all slots are
    /// reserved.
    pub fn reserve(&mut self) -> u64
        ensures reply { result ≡ (reserve self.old).reply }
        ensures after { self.new ≡ (reserve self.old).after }
        ensures same_size { self.new.slots ≡ self.old.slots }
    {
        if self.reserved.len() == usize::from(self.slots) {
            return 0;
        }
        self.reserved.push_reserved(None);
        self.reserved.len() as u64
    }

    /// Fills slot `s` with the value `v`. Replies 0, 1 where the slot isn't both reserved and empty, and the
    /// greatest number where there is no such slot.
    pub fn put(&mut self, s: u64, v: u64) -> u64
        ensures reply { result ≡ (put self.old s v).reply }
        ensures after { self.new ≡ (put self.old s v).after }
        ensures same_size { self.new.slots ≡ self.old.slots }
    {
        if s == 0 || s > u64::from(self.slots) {
            return u64::MAX;
        }
        match self.reserved.get_mut((s - 1) as usize) {
            Some(slot) if slot.is_none() => {
                *slot = Some(v);
                if s <= u64::from(self.mark) {
                    self.empty -= 1;
                }
                0
            }
            _ => 1,
        }
    }

    /// Raises the mark to `n`, if it isn't there yet. Replies 0, 1 where fewer slots are reserved, and the greatest
    /// number where there are fewer slots.
    pub fn mark(&mut self, n: u64) -> u64
        ensures reply { result ≡ (mark self.old n).reply }
        ensures after { self.new ≡ (mark self.old n).after }
        ensures same_size { self.new.slots ≡ self.old.slots }
    {
        if n > u64::from(self.slots) {
            return u64::MAX;
        }
        if n > self.reserved.len() as u64 {
            return 1;
        }
        let n = n as u16;
        if n > self.mark {
            self.empty += empty_in(&self.reserved[usize::from(self.mark)..usize::from(n)]);
            self.mark = n;
        }
        0
    }

    /// Replies the mark.
    pub fn durable(&self) -> u64
        ensures reply { result ≡ (durable self.now).reply }
        ensures after { (durable self.now).after ≡ self.now }
    {
        u64::from(self.mark)
    }

    /// How many slots are reserved.
    pub fn reserved(&self) -> u16
        ensures count { result ≡ length self.now.reserved }
        ensures sound { IsSound self.now }
    {
        self.reserved.len() as u16
    }

    /// What a reserved slot holds. None exactly where it is empty.
    pub fn slot(&self, s: u16) -> Option<u64>
        requires from { 1 ≤ s }
        requires to { s ≤ length self.now.reserved }
        ensures { result ≡ held_in self.now s }
    {
        self.reserved[usize::from(s) - 1]
    }

    /// Whether no slot from 1 to the mark is empty.
    pub fn whole(&self) -> bool
        ensures { result ≡ is_whole self.now }
    {
        self.empty == 0
    }
}

// How many of these slots are empty.
fn empty_in(slots: &[Option<u64>]) -> u16
    requires { length slots.now ≤ SLOTS }
    ensures { result ≡ count_by is_none slots.now }
{
    slots.iter().filter(|slot| slot.is_none()).count() as u16
}

#[cfg(test)]
mod tests;
