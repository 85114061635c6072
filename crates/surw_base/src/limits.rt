/// The most threads of a test.
pub const THREADS: usize = 16;

/// The most entries of a journal, of a tape and of a saved list, and the greatest sum of counts.
pub const STEPS: u32 = 65_536;

/// The most cells of a world.
pub const CELLS: u16 = 64;

/// The most locks of a world.
pub const LOCKS: u16 = 8;

/// The most pages on the disk of a world.
pub const PAGES: u16 = 256;

/// The most frames of a page cache.
pub const FRAMES: u16 = 64;

/// The most slots of a log device.
pub const SLOTS: u16 = 4_096;

/// The most monitors of a run.
pub const MONITORS: usize = 16;

/// The most lines of a steps routine.
pub const LINES: usize = 256;

/// The most times that a steps routine is run.
pub const TIMES: u16 = 4_096;

/// The greatest depth of PCT.
pub const DEPTH: u8 = 16;

/// The most bytes of an order file and of a scenario file.
pub const FILE_LIMIT: u32 = 1_048_576;

/// The most bytes of a saved file.
pub const SAVED_LIMIT: u32 = 8_388_608;
