// The longest wait, in microseconds.
pub(crate) const LONGEST_WAIT: u64 = 60_000_000;

// The latest stamp or arrival that makes a difference.
pub(crate) const LATEST_READING: u64 = 5_000_000_000_000_000;
