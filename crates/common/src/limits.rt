// The highest reading of the clock, in microseconds since 1970.
pub const LAST_READING: u64 = 4_000_000_000_000_000;

// The most bytes that the data bodies of a plan's ports have together.
pub const LONGEST_BODY: usize = 1024;

// The most bytes that a frame of a feed has.
pub const LONGEST_FRAME: usize = 1040;
