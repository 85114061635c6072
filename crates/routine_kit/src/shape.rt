ghost use Rattle.std.specs.Prelude.{◌≡◌};
ghost use Rattle.routine_kit.specs.Line.{event_of};
ghost use Rattle.routine_kit.specs.LineText.{shape_verb};

use crate::Operand;
use event_class::Event;

/// An event with an operand in the place of each number.
#[derive(Clone, Copy, Debug, PartialEq, Eq)]
pub enum Shape {
    /// Takes lock `l`.
    Acquire { l: Operand },
    /// Gives lock `l` back.
    Release { l: Operand },
    /// Reads cell `c`.
    Load { c: Operand },
    /// Writes `v` into cell `c`.
    Store { c: Operand, v: Operand },
    /// Adds `v` to cell `c`.
    Add { c: Operand, v: Operand },
    /// Writes `b` into cell `c` if that has `a`.
    SwapIf { c: Operand, a: Operand, b: Operand },
    /// Asks for the frame that holds page `p`.
    Find { p: Operand },
    /// Asks for a frame for page `p`.
    Claim { p: Operand },
    /// Reads page `p` from the disk into frame `f`.
    Fill { f: Operand, p: Operand },
    /// Reads frame `f`.
    Read { f: Operand },
    /// Writes `v` with stamp `n` into frame `f`.
    Write { f: Operand, v: Operand, n: Operand },
    /// Asks for the frame that was written first.
    Oldest,
    /// Reads the stamp of frame `f`.
    Stamp { f: Operand },
    /// Writes frame `f` to the disk.
    Flush { f: Operand },
    /// Takes the next slot of the log.
    Reserve,
    /// Writes `v` into slot `s` of the log.
    Put { s: Operand, v: Operand },
    /// Marks the log as durable up to slot `n`.
    Mark { n: Operand },
    /// Reads the mark of the log.
    Durable,
    /// Checks that `a` and `b` are equal.
    Check { a: Operand, b: Operand },
}

impl Shape {
    // The event, each operand replaced by its value.
    #[inline(always)]
    pub(crate) fn event(&self, registers: &[u64]) -> Event
        ensures { result ≡ event_of registers.now self.now }
    {
        match self {
            Shape::Acquire { l } => Event::Acquire {
                l: l.value(registers),
            },
            Shape::Release { l } => Event::Release {
                l: l.value(registers),
            },
            Shape::Load { c } => Event::Load {
                c: c.value(registers),
            },
            Shape::Store { c, v } => Event::Store {
                c: c.value(registers),
                v: v.value(registers),
            },
            Shape::Add { c, v } => Event::Add {
                c: c.value(registers),
                v: v.value(registers),
            },
            Shape::SwapIf { c, a, b } => Event::SwapIf {
                c: c.value(registers),
                a: a.value(registers),
                b: b.value(registers),
            },
            Shape::Find { p } => Event::Find {
                p: p.value(registers),
            },
            Shape::Claim { p } => Event::Claim {
                p: p.value(registers),
            },
            Shape::Fill { f, p } => Event::Fill {
                f: f.value(registers),
                p: p.value(registers),
            },
            Shape::Read { f } => Event::Read {
                f: f.value(registers),
            },
            Shape::Write { f, v, n } => Event::Write {
                f: f.value(registers),
                v: v.value(registers),
                n: n.value(registers),
            },
            Shape::Oldest => Event::Oldest,
            Shape::Stamp { f } => Event::Stamp {
                f: f.value(registers),
            },
            Shape::Flush { f } => Event::Flush {
                f: f.value(registers),
            },
            Shape::Reserve => Event::Reserve,
            Shape::Put { s, v } => Event::Put {
                s: s.value(registers),
                v: v.value(registers),
            },
            Shape::Mark { n } => Event::Mark {
                n: n.value(registers),
            },
            Shape::Durable => Event::Durable,
            Shape::Check { a, b } => Event::Check {
                a: a.value(registers),
                b: b.value(registers),
            },
        }
    }

    // Its verb.
    pub(crate) fn verb(&self) -> &'static [u8]
        ensures { result.now ≡ shape_verb self.now }
    {
        self.event(&[]).verb()
    }
}
