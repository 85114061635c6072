use crate::Content;

/// What a frame holds.
#[derive(Clone, Copy, Debug, PartialEq, Eq)]
pub struct Held {
    /// The number of its page.
    pub page: u16,
    /// What the cache has of the page.
    pub content: Content,
}
