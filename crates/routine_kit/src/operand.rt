ghost use Rattle.std.specs.Prelude.{◌≡◌, slice_index};
ghost use Rattle.routine_kit.specs.Line.{value_of};

/// What stands where an event has a number.
#[derive(Clone, Copy, Debug, PartialEq, Eq)]
pub enum Operand {
    /// This number.
    Num(u64),
    /// The value of the register with this number, below 4.
    Reg(u8),
}

impl Operand {
    // Its value, and 0 for a register that isn't there.
    pub(crate) fn value(&self, registers: &[u64]) -> u64
        ensures { result ≡ value_of registers.now self.now }
    {
        match *self {
            Operand::Num(number) => number,
            Operand::Reg(reg) => register(registers, reg),
        }
    }
}

// The value of a register, and 0 for one that isn't there.
pub(crate) fn register(registers: &[u64], reg: u8) -> u64
    ensures { result ≡ slice_index registers.now reg }
{
    registers.get(usize::from(reg)).copied().unwrap_or(0)
}
