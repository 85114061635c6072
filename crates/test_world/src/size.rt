/// How much of each kind a world has.
#[derive(Clone, Copy, Debug, PartialEq, Eq)]
pub struct WorldSize {
    /// The number of cells, at most `CELLS`.
    pub cells: u16,
    /// The number of locks, at most `LOCKS`.
    pub locks: u16,
    /// The number of frames of the page cache, at most `FRAMES`.
    pub frames: u16,
    /// The number of pages on the disk, at most `PAGES`.
    pub pages: u16,
    /// The number of slots of the log, at most `SLOTS`.
    pub slots: u16,
}
