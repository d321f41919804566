ghost use Rattle.listing.specs.Waits.{IsPolicyOf, TookNumber, TookWait, names_wait};
ghost use Rattle.std.specs.Prelude.{◌≡◌, ◌≤◌, ◌↔◌, true, false, IfOk, OnErr, None, Some, Ok, Err, string_bytes, codes, map, min, ◌*◌, ◌-◌, ◌^◌};
ghost use Rattle.std.specs.Option.{option_map, option_map_or};
ghost use Rattle.std.specs.Vec.Iter.{into_iter_items, into_iter_len};

use choice::Simple;
use policy::{Absolute, Relative};
use std::env::Args;
use thiserror::Error;

// How long slots are held open, by default and in microseconds: short enough for every rate.
const USUAL_WAIT: u64 = 100_000;

// How long slots are held open, in microseconds.
#[derive(Clone, Copy, PartialEq, Eq, Debug)]
pub struct Waits {
    // the longest wait after a slot's stamp
    pub longest: u64,
    // the wait after a slot's first arrival, if arrivals count
    pub after_arrival: Option<u64>,
}

// Why an argument sets no wait.
#[derive(Debug, Drop, Error)]
pub enum WaitError {
    #[error("an argument lacks its number of microseconds")]
    NoNumber,
    #[error("a wait has to be a whole number of microseconds")]
    NotANumber,
}

// Takes the next word, which is to be a number of microseconds.
fn next_wait(words: &mut Args) -> Result<u64, WaitError>
    ensures took { IfOk result (λ wait. TookNumber (map string_bytes (into_iter_items words.old)) (map string_bytes (into_iter_items words.new)) wait) }
    ensures missing { result ≡ Err WaitError.NoNumber ↔ into_iter_len words.old ≡ 0 }
    ensures shorter { into_iter_len words.new ≤ into_iter_len words.old }
{
    let word = words.next().ok_or(WaitError::NoNumber)?;
    word.as_str().parse().map_err(|_| WaitError::NotANumber)
}

impl Waits {
    // The waits that hold if no argument sets others.
    pub fn usual() -> Waits
        ensures { result ≡ record { longest = 100000; after_arrival = None } }
    {
        Waits {
            longest: USUAL_WAIT,
            after_arrival: None,
        }
    }

    // Takes a word that names a wait, and its number from the words behind it. Answers whether the
    // word names one.
    pub fn take(&mut self, word: &str, words: &mut Args) -> Result<bool, WaitError>
        ensures named { IfOk result (λ named. named ≡ names_wait word.now) }
        ensures other { names_wait word.now ≡ false → (result ≡ Ok false) × (self.new ≡ self.old) }
        ensures longest { word.now ≡ codes "--wait" → self.new.after_arrival ≡ self.old.after_arrival }
        ensures relative { word.now ≡ codes "--relative" → self.new.longest ≡ self.old.longest }
        ensures wait { word.now ≡ codes "--wait" → IfOk result (λ named. TookNumber (map string_bytes (into_iter_items words.old)) (map string_bytes (into_iter_items words.new)) self.new.longest) }
        ensures arrival { word.now ≡ codes "--relative" → IfOk result (λ named. TookWait (map string_bytes (into_iter_items words.old)) (map string_bytes (into_iter_items words.new)) self.new.after_arrival) }
        ensures err { OnErr result (self.new ≡ self.old) }
        ensures shorter { into_iter_len words.new ≤ into_iter_len words.old }
    {
        match word {
            "--wait" => self.longest = next_wait(words)?,
            "--relative" => self.after_arrival = Some(next_wait(words)?),
            _ => return Ok(false),
        }
        Ok(true)
    }

    // Waits twice as long.
    pub fn doubled(self) -> Waits
        ensures longest { result.longest ≡ min (2 * self.longest) (2 ^ 64 - 1) }
        ensures arrival { result.after_arrival ≡ option_map (λ wait. min (2 * wait) (2 ^ 64 - 1)) self.after_arrival }
    {
        Waits {
            longest: self.longest.saturating_mul(2),
            after_arrival: self.after_arrival.map(|wait| wait.saturating_mul(2)),
        }
    }

    // The shorter one of the waits.
    pub fn shortest(self) -> u64
        ensures { result ≡ option_map_or (min self.longest) self.after_arrival self.longest }
    {
        self.after_arrival
            .map_or(self.longest, |wait| wait.min(self.longest))
    }

    // When slots close.
    pub fn policy(self) -> Simple
        ensures { IsPolicyOf self.after_arrival self.longest result }
    {
        match self.after_arrival {
            None => Simple::One(Absolute::new(self.longest)),
            Some(after) => Simple::Other(Relative::new(after, self.longest)),
        }
    }
}
