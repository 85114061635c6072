/// What is watched for in a world.
#[derive(Clone, Copy, Debug, PartialEq, Eq)]
pub enum Monitor {
    /// Fails where a page on the disk has a stamp above the mark of the log.
    WriteAhead,
    /// Fails where a slot of the log up to its mark is empty.
    LogWhole,
    /// Fails where a check has failed.
    Expect,
    /// Fails where the cell has another value.
    CellEnd {
        /// The number of the cell.
        cell: u16,
        /// The value that it should have.
        value: u64,
    },
}
