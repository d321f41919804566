ghost use Rattle.std.specs.Prelude.{◌≡◌};
ghost use Rattle.config.specs.Formats.{encoded};

// The FORMAT word of a station: how the channels of its data block are encoded.
#[derive(Clone, Copy, PartialEq, Eq, Debug)]
pub struct Format(pub u16);

// An encoding that a bit of the FORMAT word tells of, by the value of the bit.
#[derive(Clone, Copy, PartialEq, Eq, Debug)]
pub enum Encoding {
    // Phasors are magnitude and angle.
    PolarPhasors = 1,
    // Phasors are floats.
    FloatPhasors = 2,
    // Analogs are floats.
    FloatAnalogs = 4,
    // FREQ and DFREQ are floats.
    FloatFreqs = 8,
}

impl Format {
    // Whether the channels have the encoding.
    pub fn has(self, encoding: Encoding) -> bool
        ensures { result ≡ encoded encoding self.0 }
    {
        self.0 / encoding as u16 % 2 == 1
    }
}
