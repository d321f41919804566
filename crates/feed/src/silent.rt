ghost use Rattle.feed.specs.Silent.{silent};

use crate::feed::{Feed, Taken, check_room};
use common::Fault;

// Nothing ever waits.
#[derive(Clone, Copy)]
pub struct Silent;

impl Feed for Silent {
    ghost meaning = { λ _. silent };

    fn tick(&mut self, _reading: u64, scratch: &mut [u8]) -> Result<(), Fault> {
        check_room(scratch)
    }

    fn next(&mut self, buffer: &mut [u8]) -> Result<Taken, Fault> {
        check_room(buffer)?;
        Err(Fault::NothingWaits)
    }
}
