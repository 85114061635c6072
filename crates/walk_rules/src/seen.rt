ghost use Rattle.std.specs.Prelude.{◌≡◌};
ghost use Rattle.walk_rules.specs.Seen.{is_able, is_announcing, is_selected, is_unselected};
ghost use Rattle.walk_rules.specs.Walk.{is_wrong};

/// What a strategy sees of a thread. `chosen` says that its event is selected.
#[derive(Clone, Copy, Debug, Default, PartialEq, Eq)]
pub enum Seen {
    /// The thread has ended.
    #[default]
    Over,
    /// It announces an event that isn't enabled.
    Held {
        /// Whether the event is selected.
        chosen: bool,
    },
    /// It announces an event that is enabled.
    Able {
        /// Whether the event is selected.
        chosen: bool,
    },
}

impl Seen {
    // Whether the thread can go on.
    pub(crate) fn is_able(self) -> bool
        ensures { result ≡ is_able self }
    {
        match self {
            Seen::Able { .. } => true,
            _ => false,
        }
    }

    /// Whether the thread can go on and its event is selected.
    pub fn is_selected(self) -> bool
        ensures { result ≡ is_selected self }
    {
        match self {
            Seen::Able { chosen } => chosen,
            _ => false,
        }
    }

    // Whether the thread can go on and its event isn't selected.
    pub(crate) fn is_unselected(self) -> bool
        ensures { result ≡ is_unselected self }
    {
        match self {
            Seen::Able { chosen } => !chosen,
            _ => false,
        }
    }

    // Whether the thread announces an event.
    pub(crate) fn is_announcing(self) -> bool
        ensures { result ≡ is_announcing self }
    {
        match self {
            Seen::Over => false,
            _ => true,
        }
    }

    // Whether the thread has ended with numbers left, or announces a selected event with none left.
    pub(crate) fn is_wrong(self, left: u32) -> bool
        ensures { result ≡ is_wrong left self }
    {
        match self {
            Seen::Over => left > 0,
            Seen::Held { chosen } | Seen::Able { chosen } => chosen && left == 0,
        }
    }
}
