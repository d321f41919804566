ghost use Rattle.feed.specs.Calls.{pick};
ghost use Rattle.feed.specs.Feeds.{Next, Tick, after};
ghost use Rattle.feed_checks.specs.Checks.{IsNext, is_filled};
ghost use Rattle.std.specs.Prelude.{◌≡◌, ◌≢◌, IfErr, IfOk, Ok, [], false, true};

use common::{Fault, Port};
use feed::Feed;
use fixtures::number;

// Refusals are checked by their numbers, as a test gives its own values.

// What every buffer is filled with before it is lent.
const FILL: u8 = 0x55;

// An error that says what was found, unless what was due was.
fn check(due: bool, otherwise: &'static str) -> Result<(), &'static str>
    ensures ok { IfOk result (λ _. due ≡ true) }
    ensures err { IfErr result (λ _. due ≡ false) }
{
    due.then_some(()).ok_or(otherwise)
}

// An error if a byte is not what buffers are filled with.
fn check_filled(bytes: &[u8]) -> Result<(), &'static str>
    ensures ok { IfOk result (λ _. is_filled bytes.now ≡ true) }
    ensures err { IfErr result (λ _. is_filled bytes.now ≡ false) }
{
    let same = bytes.iter().all(|byte| *byte == FILL);
    check(same, "bytes of a buffer changed that were to stay")
}

// A tick with a buffer of the least length.
pub fn tick<F: Feed>(feed: &mut F, reading: u64) -> Result<(), Fault>
    ensures answer { result ≡ Ok tt }
    ensures left { (F.meaning feed.new).waits ≡ after (F.meaning feed.old).waits (Tick reading) }
{
    let mut scratch = [FILL; 1040];
    feed.tick(reading, &mut scratch)
}

// That this frame is next, and is put at the front of a buffer whose rest stays as it was.
pub fn check_next<F: Feed>(feed: &mut F, port: u8, frame: &[u8]) -> Result<(), &'static str>
    ensures next { IfOk result (λ _. IsNext ((F.meaning feed.old).waits []) port frame.now) }
    ensures other { IfErr result (λ _. ¬ IsNext ((F.meaning feed.old).waits []) port frame.now) }
    ensures left { (F.meaning feed.new).waits ≡ pick ((F.meaning feed.old).waits []) (after (F.meaning feed.old).waits Next) (F.meaning feed.old).waits }
{
    let mut buffer = [FILL; 1040];
    let taken = feed.next(&mut buffer).ok().ok_or("no frame is next")?;
    check(taken.port == Port(port), "the next frame has another port")?;
    check(
        taken.len == frame.len(),
        "the next frame has another length",
    )?;
    let (front, rest) = buffer
        .split_at_checked(frame.len())
        .ok_or("a frame is too long")?;
    check(front == frame, "the next frame has other bytes")?;
    check_filled(rest)
}

// That nothing waits, and the buffer stays as it was.
pub fn check_idle<F: Feed>(feed: &mut F) -> Result<(), &'static str>
    ensures idle { IfOk result (λ _. (F.meaning feed.old).waits [] ≡ []) }
    ensures busy { IfErr result (λ _. (F.meaning feed.old).waits [] ≢ []) }
    ensures left { (F.meaning feed.new).waits ≡ pick ((F.meaning feed.old).waits []) (after (F.meaning feed.old).waits Next) (F.meaning feed.old).waits }
{
    let mut buffer = [FILL; 1040];
    check(
        number(feed.next(&mut buffer)) == 30,
        "a next is not answered 30",
    )?;
    check_filled(&buffer)
}

// That a buffer of one byte too few is refused by either call, and stays as it was: so it is at every feed.
pub fn check_short<F: Feed>(feed: &mut F, reading: u64) -> Result<(), &'static str>
    ensures answer { result ≡ Ok tt }
    ensures left { (F.meaning feed.new).waits ≡ (F.meaning feed.old).waits }
{
    let mut buffer = [FILL; 1039];
    check(
        number(feed.tick(reading, &mut buffer)) == 17,
        "a short tick is not answered 17",
    )?;
    check_filled(&buffer)?;
    check(
        number(feed.next(&mut buffer)) == 17,
        "a short next is not answered 17",
    )?;
    check_filled(&buffer)
}
