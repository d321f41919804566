use capture::Capture;

// How many records are still to come. By a fold: `count` would have it proved that they are fewer
// than a `usize` tells.
pub(crate) fn count_records(capture: Capture) -> usize {
    capture.fold(0, |n: usize, _record| n.saturating_add(1))
}
