ghost use Rattle.choice.specs.Feeds.{meaning_by};
ghost use Rattle.feed.specs.Joined.{both};
ghost use Rattle.feed.specs.Maps.{through};
ghost use Rattle.feed.specs.Silent.{silent as nothing};
ghost use Rattle.recorded.specs.Recordings.{meaning_of};
ghost use Rattle.shift.specs.Lines.{by_line};
ghost use Rattle.stacked.specs.Stackings.{meaning_of as meaning_under};
ghost use Rattle.std.specs.Prelude.{◌≡◌};

use crate::AnyPolicy;
use common::Fault;
use feed::{Feed, Joined, Mapped, Silent, Taken};
use recorded::Recorded;
use shift::{Shifted, Shifts};
use stacked::Stacked;

// No frames, or those of captures: of one, of two joined, of one under shifts, or of one by way of a
// concentrator that stands under the box.
// Each is as large as that concentrator: on the heap it would need an allocator.
#[derive(Clone, Copy)]
pub enum AnyFeed<'a> {
    Silent(Silent),
    Recorded(Recorded<'a>),
    Joined(Joined<Recorded<'a>, Recorded<'a>>),
    Shifted(Shifted<Recorded<'a>>),
    Stacked(Stacked<Recorded<'a>, AnyPolicy>),
}

impl<'a> AnyFeed<'a> {
    pub fn silent() -> AnyFeed<'a>
        ensures { meaning_by result ≡ nothing }
    {
        AnyFeed::Silent(Silent)
    }

    pub fn recorded(records: Recorded<'a>) -> AnyFeed<'a>
        ensures { meaning_by result ≡ meaning_of records.entry }
    {
        AnyFeed::Recorded(records)
    }

    pub fn joined(first: Recorded<'a>, second: Recorded<'a>) -> AnyFeed<'a>
        ensures { meaning_by result ≡ both (meaning_of first.entry) (meaning_of second.entry) }
    {
        AnyFeed::Joined(Joined { first, second })
    }

    pub fn shifted(feed: Recorded<'a>, map: Shifts) -> AnyFeed<'a>
        ensures { meaning_by result ≡ through (by_line map.seconds) (meaning_of feed.entry) }
    {
        AnyFeed::Shifted(Mapped { feed, map })
    }

    pub fn stacked(below: Stacked<Recorded<'a>, AnyPolicy>) -> AnyFeed<'a>
        ensures { meaning_by result ≡ meaning_under below.entry }
    {
        AnyFeed::Stacked(below)
    }
}

impl<'a> Feed for AnyFeed<'a> {
    ghost meaning = { meaning_by };

    fn tick(&mut self, reading: u64, scratch: &mut [u8]) -> Result<(), Fault> {
        match self {
            AnyFeed::Silent(feed) => feed.tick(reading, scratch),
            AnyFeed::Recorded(feed) => feed.tick(reading, scratch),
            AnyFeed::Joined(feed) => feed.tick(reading, scratch),
            AnyFeed::Shifted(feed) => feed.tick(reading, scratch),
            AnyFeed::Stacked(feed) => feed.tick(reading, scratch),
        }
    }

    fn next(&mut self, buffer: &mut [u8]) -> Result<Taken, Fault> {
        match self {
            AnyFeed::Silent(feed) => feed.next(buffer),
            AnyFeed::Recorded(feed) => feed.next(buffer),
            AnyFeed::Joined(feed) => feed.next(buffer),
            AnyFeed::Shifted(feed) => feed.next(buffer),
            AnyFeed::Stacked(feed) => feed.next(buffer),
        }
    }
}
