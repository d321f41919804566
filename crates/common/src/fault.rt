ghost use Rattle.common.specs.Faults.{number as number_of, number_in, station as station_of};
ghost use Rattle.std.specs.Prelude.{◌≡◌, ◌≤◌};

use std::error::Error;
use std::fmt;

// Why a call refused. Each case has a fixed number, which hosts may rely on.
#[derive(Clone, Copy, PartialEq, Eq, Hash, Debug)]
pub enum Fault {
    Short,
    Sync,
    FrameSize,
    CheckWord,
    FrameType,
    IdCode,
    Count,
    NoSlot,
    Length,
    // The length disagrees at this station of a configuration, counted from 0.
    StationLength { station: u16 },
    TooEarly,
    // A limit is passed at this station of a configuration, counted from 0.
    StationLimit { station: u16 },
    Rate,
    Unsound,
    Reading,
    Port,
    Buffer,
    Closed,
    Repeated,
    TooFarAhead,
    NoneClosed,
    TicketOut,
    EmptyPlan,
    WaitTooLong,
    PlanFull,
    Exhausted,
    WrongTicket,
    NothingWaits,
}

impl Fault {
    // The refusal's fixed number. By a `match`, as two cases share 9; and no `From`, since the method's
    // name says what the number is.
    pub fn number(self) -> u8
        ensures { result ≡ number_of self }
    {
        match self {
            Fault::Short => 1,
            Fault::Sync => 2,
            Fault::FrameSize => 3,
            Fault::CheckWord => 4,
            Fault::FrameType => 5,
            Fault::IdCode => 6,
            Fault::Count => 7,
            Fault::NoSlot => 8,
            Fault::Length => 9,
            Fault::StationLength { .. } => 9,
            Fault::TooEarly => 10,
            Fault::StationLimit { .. } => 11,
            Fault::Rate => 12,
            Fault::Unsound => 13,
            Fault::Reading => 14,
            Fault::Port => 15,
            Fault::Buffer => 17,
            Fault::Closed => 20,
            Fault::Repeated => 21,
            Fault::TooFarAhead => 22,
            Fault::NoneClosed => 23,
            Fault::TicketOut => 24,
            Fault::EmptyPlan => 25,
            Fault::WaitTooLong => 26,
            Fault::PlanFull => 27,
            Fault::Exhausted => 28,
            Fault::WrongTicket => 29,
            Fault::NothingWaits => 30,
        }
    }

    // The station at which the reading of a configuration stopped, if the refusal tells one.
    pub fn station(self) -> Option<u16>
        ensures { result ≡ station_of self }
    {
        match self {
            Fault::StationLength { station } | Fault::StationLimit { station } => Some(station),
            _ => None,
        }
    }

    // A few plain words for a person. By hand: a derive would take the number as an argument at every case.
    fn words(self) -> &'static str {
        match self {
            Fault::Short => "fewer than 16 bytes",
            Fault::Sync => "no SYNC word of a known type and version",
            Fault::FrameSize => "FRAMESIZE is not the number of bytes",
            Fault::CheckWord => "the check word does not match",
            Fault::FrameType => "not the type of frame that is due here",
            Fault::IdCode => "an ID code that is reserved or not the port's",
            Fault::Count => "the count is not below the time base",
            Fault::NoSlot => "the time lies on no slot",
            Fault::Length => "the length does not fit the port's stations",
            Fault::StationLength { .. } => "the configuration's length does not fit its stations",
            Fault::TooEarly => "the time lies too far ahead of the clock",
            Fault::StationLimit { .. } => "the configuration passes a limit",
            Fault::Rate => "the rate is out of range or not the plan's",
            Fault::Unsound => "the capture is unsound",
            Fault::Reading => "the reading is too large or leaps too far",
            Fault::Port => "the port is not in the plan",
            Fault::Buffer => "the buffer is too short",
            Fault::Closed => "the slot is closed or before the first",
            Fault::Repeated => "the port is already in the slot",
            Fault::TooFarAhead => "the slot is too far past the oldest unwritten one",
            Fault::NoneClosed => "no slot is closed and unwritten",
            Fault::TicketOut => "a ticket is out",
            Fault::EmptyPlan => "the plan is empty",
            Fault::WaitTooLong => "the wait is too long for the rate",
            Fault::PlanFull => "the plan is full",
            Fault::Exhausted => "no more frames can be judged",
            Fault::WrongTicket => "not the ticket that is out",
            Fault::NothingWaits => "nothing waits",
        }
    }
}

// The number of a verdict: 0, or the refusal's.
pub fn verdict_number<T: Drop>(verdict: Result<T, Fault>) -> u8
    ensures value { result ≡ number_in verdict }
    ensures few { result ≤ 30 }
{
    verdict.err().map_or(0, Fault::number)
}

impl fmt::Display for Fault {
    fn fmt<W: fmt::Write>(&self, f: &mut fmt::Formatter<W>) -> fmt::Result {
        let number = self.number();
        let words = self.words();
        match self.station() {
            Some(station) => write!(f, "{number} {words} (station {station})"),
            None => write!(f, "{number} {words}"),
        }
    }
}

impl Error for Fault {}
