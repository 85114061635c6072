/// What the cache or the disk has of a page.
#[derive(Clone, Copy, Debug, PartialEq, Eq)]
pub struct Content {
    /// The value.
    pub value: u64,
    /// The stamp of the write that gave it, 0 where there was none.
    pub stamp: u64,
}
