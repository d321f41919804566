use concentrator::{Counts, REFUSALS};
use std::fmt;

// What a concentrator has counted, beside what else is known of its run.
#[derive(Clone, Copy)]
pub struct Account {
    pub counts: Counts,
    // whether a frame still waits at the feed
    pub waits: bool,
    // the frames that the feed had, and the slots that were shown
    pub frames: u64,
    pub slots: u64,
}

impl Account {
    // The refusals by number, added up.
    fn by_number(&self) -> u64 {
        let each = REFUSALS.iter().map(|fault| self.counts.refused(*fault));
        each.fold(0, u64::saturating_add)
    }

    // The frames that were judged or wait: of those that wait no more than one is known.
    fn met(&self) -> u64 {
        let judged = self
            .counts
            .accepted()
            .saturating_add(self.counts.refusals());
        judged.saturating_add(u64::from(self.waits))
    }
}

// The word for two numbers that should be the same.
fn word(one: u64, other: u64) -> &'static str {
    if one == other { "agree" } else { "disagree" }
}

impl fmt::Display for Account {
    fn fmt<W: fmt::Write>(&self, f: &mut fmt::Formatter<W>) -> fmt::Result {
        let accepted = self.counts.accepted();
        let refused = self.counts.refusals();
        let written = self.counts.written;
        let waiting = if self.waits {
            "some wait"
        } else {
            "none waits"
        };
        writeln!(
            f,
            "account: {accepted} frames accepted, {refused} refused, {waiting}; {written} slots written"
        )?;
        for fault in REFUSALS {
            let times = self.counts.refused(fault);
            if times > 0 {
                writeln!(f, "{times:>7} refused with {fault}")?;
            }
        }
        self.show_sums(f)
    }
}

impl Account {
    // Whether the numbers add up.
    fn show_sums<W: fmt::Write>(&self, f: &mut fmt::Formatter<W>) -> fmt::Result {
        let frames = self.frames;
        let met = self.met();
        let refused = self.counts.refusals();
        let by_number = self.by_number();
        let written = self.counts.written;
        let slots = self.slots;
        writeln!(
            f,
            "sums: {frames} frames came, {met} are accepted, refused or waiting: {}",
            word(frames, met)
        )?;
        writeln!(
            f,
            "sums: {refused} refused, {by_number} by number: {}",
            word(refused, by_number)
        )?;
        write!(
            f,
            "sums: {written} slots written, {slots} shown: {}",
            word(written, slots)
        )
    }
}
