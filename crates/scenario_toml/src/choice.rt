use crate::Strategy;

/// What is chosen in place of the values of a file.
#[derive(Clone, Copy, Debug, PartialEq, Eq)]
pub struct Choice {
    /// The strategy.
    pub strategy: Option<Strategy>,
    /// The seed.
    pub seed: Option<u64>,
    /// The depth, from 1 to `DEPTH`.
    pub depth: Option<u8>,
}
