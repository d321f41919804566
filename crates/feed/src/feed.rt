ghost use Rattle.feed.specs.Calls.{next_buffer, next_left, next_said, short, tick_left, tick_said};
ghost use Rattle.feed.specs.Feeds.{Meaning};
ghost use Rattle.std.specs.Prelude.{◌≡◌, true, []};

use common::{Fault, LONGEST_FRAME, Port};

// Refuses a buffer that is shorter than the longest frame.
pub fn check_room(buffer: &[u8]) -> Result<(), Fault>
    ensures { result ≡ tick_said buffer.now }
{
    if buffer.len() < LONGEST_FRAME {
        return Err(Fault::Buffer);
    }
    Ok(())
}

// A frame that was taken off a feed: the line it came in by, and how many bytes it has. A length, as
// the library's `read` answers: a lent front would keep the buffer.
#[derive(Clone, Copy, PartialEq, Eq, Debug)]
pub struct Taken {
    pub port: Port,
    pub len: usize,
}

// Frames that wait in line. A feed means the list of those that wait now, and of those that will
// wait after any ticks and nexts.
pub trait Feed {
    ghost meaning: { Self → Meaning };

    // Adds the frames that have come by `reading`. A buffer shorter than the longest frame is
    // refused and stays as it was; else it may be used as scratch.
    fn tick(&mut self, reading: u64, scratch: &mut [u8]) -> Result<(), Fault>
        ensures answer { result ≡ tick_said scratch.old }
        ensures left { (meaning self.new).waits ≡ tick_left (meaning self.old).waits reading scratch.old }
        ensures refused { short scratch.old ≡ true → scratch.new ≡ scratch.old };

    // Takes the first frame and puts it at the buffer's front, with the rest of the buffer as it
    // was. A buffer shorter than the longest frame and want of a frame are refused.
    fn next(&mut self, buffer: &mut [u8]) -> Result<Taken, Fault>
        ensures answer { result ≡ next_said ((meaning self.old).waits []) buffer.old }
        ensures frame { buffer.new ≡ next_buffer ((meaning self.old).waits []) buffer.old }
        ensures left { (meaning self.new).waits ≡ next_left (meaning self.old).waits buffer.old };
}
