use scenario_toml::{Choice, Strategy};

/// Nothing in place of a scenario's values.
pub(crate) const NO_CHOICE: Choice = Choice {
    strategy: None,
    seed: None,
    depth: None,
};

/// The plain strategy in place of the file's.
pub(crate) const PLAIN_CHOICE: Choice = Choice {
    strategy: Some(Strategy::Plain),
    seed: None,
    depth: None,
};
