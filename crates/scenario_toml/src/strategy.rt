ghost use Rattle.std.specs.Prelude.{◌≡◌};
ghost use Rattle.scenario_toml.specs.Texts.{strategy_of};

/// A strategy that a scenario can name.
#[derive(Clone, Copy, Debug, PartialEq, Eq)]
pub enum Strategy {
    /// The next thread is picked with a weight equal to its number of events left.
    Urw,
    /// A thread is intended with a weight equal to its number of selected events left, until it makes one.
    Surw,
    /// Each thread has a drawn priority, and the highest that can go on is picked. The depth says how often it
    /// gets a low one.
    Pct,
    /// Each thread that can go on is picked with equal weight.
    Plain,
}

impl Strategy {
    /// The strategy of this name.
    pub fn of(text: &[u8]) -> Option<Strategy>
        ensures { result ≡ strategy_of text.now }
    {
        match text {
            b"urw" => Some(Strategy::Urw),
            b"surw" => Some(Strategy::Surw),
            b"pct" => Some(Strategy::Pct),
            b"plain" => Some(Strategy::Plain),
            _ => None,
        }
    }
}
