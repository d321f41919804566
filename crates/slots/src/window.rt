ghost use Rattle.slots.specs.Laws.{WindowSpans};
ghost use Rattle.slots.specs.Slots.{frames_of, window_fits};
ghost use Rattle.std.specs.Prelude.{◌≡◌};

use crate::rate::Rate;

impl Rate {
    // Whether the slots that are open at once, under a wait of at most the bound, are few enough.
    pub fn fits_window(self, bound: u64) -> bool
        ensures answer { result ≡ window_fits (frames_of self) bound }
        ensures laws { WindowSpans }
    {
        bound.saturating_add(100_000) <= 32_000_000 / self.frames
    }
}
