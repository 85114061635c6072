use crate::{Operand, Shape};

/// A line of a routine of steps.
#[derive(Clone, Copy, Debug, PartialEq, Eq)]
pub enum Line {
    /// Announces the event of `shape`. The reply goes into register `into`, if one is named.
    Act {
        shape: Shape,
        into: Option<u8>,
    },
    /// Adds `by` to register `reg`, modulo 2^64.
    Plus {
        reg: u8,
        by: Operand,
    },
    /// Passes over the next `over` lines, at most to the end of the list, where register `reg` is equal to
    /// `with` if `equal` holds, and where it is not equal otherwise.
    Skip {
        over: u16,
        reg: u8,
        equal: bool,
        with: Operand,
    },
}
