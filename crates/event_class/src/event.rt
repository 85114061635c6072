ghost use Rattle.std.specs.Prelude.{◌≡◌, ◌∷◌, [], ◌≤◌, length, take};
ghost use Rattle.event_class.specs.Event.{class, lock_or_cell, verb_of, numbers_of};

/// What an event is about.
#[derive(Clone, Copy, Debug, PartialEq, Eq)]
pub enum Class {
    /// A lock.
    Lock,
    /// A cell.
    Cell,
    /// The frames of the page cache.
    Cache,
    /// The pages on the disk.
    Disk,
    /// The log.
    Log,
    /// A check of the test's own.
    Check,
}

/// One step of a thread on the shared world. Each number may be any.
#[derive(Clone, Copy, Debug, PartialEq, Eq)]
pub enum Event {
    /// Takes lock `l`.
    Acquire { l: u64 },
    /// Gives lock `l` back.
    Release { l: u64 },
    /// Reads cell `c`.
    Load { c: u64 },
    /// Writes `v` into cell `c`.
    Store { c: u64, v: u64 },
    /// Adds `v` to cell `c`.
    Add { c: u64, v: u64 },
    /// Writes `b` into cell `c` if that has `a`.
    SwapIf { c: u64, a: u64, b: u64 },
    /// Asks for the frame that holds page `p`.
    Find { p: u64 },
    /// Asks for a frame for page `p`.
    Claim { p: u64 },
    /// Reads page `p` from the disk into frame `f`.
    Fill { f: u64, p: u64 },
    /// Reads frame `f`.
    Read { f: u64 },
    /// Writes `v` with stamp `n` into frame `f`.
    Write { f: u64, v: u64, n: u64 },
    /// Asks for the frame that was written first.
    Oldest,
    /// Reads the stamp of frame `f`.
    Stamp { f: u64 },
    /// Writes frame `f` to the disk.
    Flush { f: u64 },
    /// Takes the next slot of the log.
    Reserve,
    /// Writes `v` into slot `s` of the log.
    Put { s: u64, v: u64 },
    /// Marks the log as durable up to slot `n`.
    Mark { n: u64 },
    /// Reads the mark of the log.
    Durable,
    /// Checks that `a` and `b` are equal.
    Check { a: u64, b: u64 },
}

/// One event of each kind, those first that a test has most often. Their numbers are 0.
pub(crate) const FORMS: [Event; 19] = [
    Event::Load { c: 0 },
    Event::Store { c: 0, v: 0 },
    Event::Add { c: 0, v: 0 },
    Event::SwapIf { c: 0, a: 0, b: 0 },
    Event::Acquire { l: 0 },
    Event::Release { l: 0 },
    Event::Find { p: 0 },
    Event::Claim { p: 0 },
    Event::Fill { f: 0, p: 0 },
    Event::Read { f: 0 },
    Event::Write { f: 0, v: 0, n: 0 },
    Event::Oldest,
    Event::Stamp { f: 0 },
    Event::Flush { f: 0 },
    Event::Reserve,
    Event::Put { s: 0, v: 0 },
    Event::Mark { n: 0 },
    Event::Durable,
    Event::Check { a: 0, b: 0 },
];

impl Event {
    /// Its class.
    pub fn class(&self) -> Class
        ensures { result ≡ class self.now }
    {
        match self {
            Event::Acquire { .. } | Event::Release { .. } => Class::Lock,
            Event::Load { .. } | Event::Store { .. } => Class::Cell,
            Event::Add { .. } | Event::SwapIf { .. } => Class::Cell,
            Event::Find { .. } | Event::Claim { .. } => Class::Cache,
            Event::Read { .. } | Event::Write { .. } => Class::Cache,
            Event::Oldest | Event::Stamp { .. } => Class::Cache,
            Event::Fill { .. } | Event::Flush { .. } => Class::Disk,
            Event::Reserve | Event::Put { .. } => Class::Log,
            Event::Mark { .. } | Event::Durable => Class::Log,
            Event::Check { .. } => Class::Check,
        }
    }

    /// The number of its lock or of its cell. None at an event of another class.
    pub(crate) fn lock_or_cell(&self) -> Option<u64>
        ensures { result ≡ lock_or_cell self.now }
    {
        match *self {
            Event::Acquire { l } | Event::Release { l } => Some(l),
            Event::Load { c } | Event::Store { c, .. } => Some(c),
            Event::Add { c, .. } | Event::SwapIf { c, .. } => Some(c),
            _ => None,
        }
    }

    /// The verb with which its text begins, of at most 7 bytes.
    pub fn verb(&self) -> &'static [u8]
        ensures verb { result.now ≡ verb_of self.now }
        ensures short { length result.now ≤ 7 }
    {
        match self {
            Event::Acquire { .. } => b"acquire",
            Event::Release { .. } => b"release",
            Event::Load { .. } => b"load",
            Event::Store { .. } => b"store",
            Event::Add { .. } => b"add",
            Event::SwapIf { .. } => b"swap_if",
            Event::Find { .. } => b"find",
            Event::Claim { .. } => b"claim",
            Event::Fill { .. } => b"fill",
            Event::Read { .. } => b"read",
            Event::Write { .. } => b"write",
            Event::Oldest => b"oldest",
            Event::Stamp { .. } => b"stamp",
            Event::Flush { .. } => b"flush",
            Event::Reserve => b"reserve",
            Event::Put { .. } => b"put",
            Event::Mark { .. } => b"mark",
            Event::Durable => b"durable",
            Event::Check { .. } => b"check",
        }
    }

    /// Its numbers in the order of its text, at the front of the array, and how many there are.
    pub(crate) fn numbers(&self) -> ([u64; 3], usize)
        ensures numbers { take result.1 result.0 ≡ numbers_of self.now }
        ensures count { result.1 ≡ length (numbers_of self.now) }
        ensures within { result.1 ≤ 3 }
    {
        match *self {
            Event::Oldest | Event::Reserve | Event::Durable => ([0, 0, 0], 0),
            Event::Acquire { l: n } | Event::Release { l: n } => ([n, 0, 0], 1),
            Event::Load { c: n } | Event::Find { p: n } => ([n, 0, 0], 1),
            Event::Claim { p: n } | Event::Read { f: n } => ([n, 0, 0], 1),
            Event::Stamp { f: n } | Event::Flush { f: n } => ([n, 0, 0], 1),
            Event::Mark { n } => ([n, 0, 0], 1),
            Event::Store { c, v } | Event::Add { c, v } => ([c, v, 0], 2),
            Event::Fill { f, p } => ([f, p, 0], 2),
            Event::Put { s, v } => ([s, v, 0], 2),
            Event::Check { a, b } => ([a, b, 0], 2),
            Event::SwapIf { c, a, b } => ([c, a, b], 3),
            Event::Write { f, v, n } => ([f, v, n], 3),
        }
    }

    /// The event of the same kind with the first of these numbers.
    pub(crate) fn with(&self, i: u64, j: u64, k: u64) -> Event
        ensures verb { verb_of result ≡ verb_of self.now }
        ensures numbers { numbers_of result ≡ take (length (numbers_of self.now)) (i ∷ j ∷ k ∷ []) }
    {
        match self {
            Event::Acquire { .. } => Event::Acquire { l: i },
            Event::Release { .. } => Event::Release { l: i },
            Event::Load { .. } => Event::Load { c: i },
            Event::Store { .. } => Event::Store { c: i, v: j },
            Event::Add { .. } => Event::Add { c: i, v: j },
            Event::SwapIf { .. } => Event::SwapIf { c: i, a: j, b: k },
            Event::Find { .. } => Event::Find { p: i },
            Event::Claim { .. } => Event::Claim { p: i },
            Event::Fill { .. } => Event::Fill { f: i, p: j },
            Event::Read { .. } => Event::Read { f: i },
            Event::Write { .. } => Event::Write { f: i, v: j, n: k },
            Event::Oldest => Event::Oldest,
            Event::Stamp { .. } => Event::Stamp { f: i },
            Event::Flush { .. } => Event::Flush { f: i },
            Event::Reserve => Event::Reserve,
            Event::Put { .. } => Event::Put { s: i, v: j },
            Event::Mark { .. } => Event::Mark { n: i },
            Event::Durable => Event::Durable,
            Event::Check { .. } => Event::Check { a: i, b: j },
        }
    }
}
