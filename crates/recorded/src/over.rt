ghost use Rattle.std.specs.Prelude.{◌≡◌, is_ok};
ghost use Rattle.capture.specs.Records.{records_of};
ghost use Rattle.recorded.specs.Laws.{AddsAllDue, SilentIfUnsound};
ghost use Rattle.recorded.specs.Queues.{played, soundness};
ghost use Rattle.recorded.specs.Recordings.{meaning_of, sound_of};

use crate::recorded::Recorded;
use capture::Capture;
use common::Fault;

impl<'a> Recorded<'a> {
    // The feed of any bytes: over a capture that is not sound, nothing ever waits.
    pub fn over(bytes: &'a [u8]) -> Recorded<'a>
        ensures waits { (meaning_of result).waits ≡ played bytes.now }
        ensures sound { sound_of result ≡ is_ok (records_of bytes.now) }
        ensures laws { AddsAllDue × SilentIfUnsound }
    {
        Recorded {
            records: Capture::open(bytes).ok(),
            latest: None,
        }
    }

    // Refuses a capture that is not sound.
    pub fn check(&self) -> Result<(), Fault>
        ensures { result ≡ soundness (sound_of self.now) }
    {
        self.records.map(|_| ()).ok_or(Fault::Unsound)
    }
}
