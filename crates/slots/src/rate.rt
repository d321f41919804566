ghost use Rattle.std.specs.Option.{option_map};
ghost use Rattle.std.specs.Prelude.{◌≡◌, ◌<◌, ◌≤◌};

// Frames a second, from 1 to 120.
#[derive(Clone, Copy, PartialEq, Eq, Hash, PartialOrd, Ord, Debug)]
pub struct Rate {
    pub(crate) frames: u64,
    ghost some: { 0 < frames },
    ghost few: { frames ≤ 120 },
}

impl Rate {
    ghost use Rattle.slots.specs.Slots.{frames_of, rate_from};

    // The rate of so many frames a second, if there is one.
    pub fn new(frames: u16) -> Option<Rate>
        ensures { option_map frames_of result ≡ rate_from frames }
    {
        match frames {
            1..=120 => Some(Rate {
                frames: u64::from(frames),
            }),
            _ => None,
        }
    }

    // How many frames a second.
    pub fn frames(self) -> u16
        ensures { result ≡ frames_of self }
    {
        // By `as`, which is itself proved to lose nothing, and is shorter than a proved `unwrap`.
        self.frames as u16
    }
}
