ghost use Rattle.std.specs.Prelude.{◌≡◌, ◌<◌, ◌≤◌, IfOk, length, replicate, slice_index, slice_set};
ghost use Rattle.surw_base.specs.Number.{wrapping_sum};
ghost use Rattle.test_world.specs.World.{value_or_greatest, zero_or_greatest, swapped};

use std::alloc::Global;
use std::marker::Model;
use surw_base::OutOfMemory;

/// Cells, each with a number. A contract sees the list of the numbers.
#[derive(Debug, Drop)]
pub(crate) struct Cells {
    values: Vec<u64>,
}

impl Model for Cells {
    ghost use Rattle.std.specs.Prelude.{ℕ, List};

    ghost Value = { List ℕ };

    ghost view = { λ cells. cells.values.items };
}

impl Cells {
    /// So many cells with 0. An error comes only where memory is refused.
    pub(crate) fn new(alloc: Global, count: u16) -> Result<Cells, OutOfMemory>
        ensures { IfOk result (λ cells. cells ≡ replicate count 0) }
    {
        let values = vec![in alloc; 0; usize::from(count)]?;
        Ok(Cells { values })
    }

    /// The number of a cell.
    pub(crate) fn value(&self, c: u16) -> u64
        requires { c < length self.now }
        ensures { result ≡ slice_index self.now c }
    {
        self.values[usize::from(c)]
    }

    /// Replies the number of cell `c`.
    pub(crate) fn load(&self, c: u64) -> u64
        ensures { result ≡ value_or_greatest self.now c }
    {
        self.values.get(c as usize).copied().unwrap_or(u64::MAX)
    }

    /// Gives cell `c` the number `v`.
    pub(crate) fn store(&mut self, c: u64, v: u64) -> u64
        ensures reply { result ≡ zero_or_greatest self.old c }
        ensures after { self.new ≡ slice_set self.old c v }
    {
        match self.values.get_mut(c as usize) {
            Some(value) => {
                *value = v;
                0
            }
            None => u64::MAX,
        }
    }

    /// Adds `v` to cell `c`, modulo 2^64, and replies the number before.
    pub(crate) fn add(&mut self, c: u64, v: u64) -> u64
        ensures reply { result ≡ value_or_greatest self.old c }
        ensures after { self.new ≡ slice_set self.old c (wrapping_sum (slice_index self.old c) v) }
    {
        match self.values.get_mut(c as usize) {
            Some(value) => {
                let before = *value;
                *value = before.wrapping_add(v);
                before
            }
            None => u64::MAX,
        }
    }

    /// Gives cell `c` the number `b` if it has `a`, and replies the number before.
    pub(crate) fn swap_if(&mut self, c: u64, a: u64, b: u64) -> u64
        ensures reply { result ≡ value_or_greatest self.old c }
        ensures after { self.new ≡ slice_set self.old c (swapped (slice_index self.old c) a b) }
    {
        match self.values.get_mut(c as usize) {
            Some(value) => {
                let before = *value;
                if before == a {
                    *value = b;
                }
                before
            }
            None => u64::MAX,
        }
    }
}
