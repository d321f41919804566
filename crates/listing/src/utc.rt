use jiff::Timestamp;
use jiff::tz::Offset;
use std::fmt;

// Date and time of day of a second, counted from the beginning of 1970 UTC.
#[derive(Clone, Copy)]
pub struct Utc(pub u32);

impl fmt::Display for Utc {
    fn fmt<W: fmt::Write>(&self, f: &mut fmt::Formatter<W>) -> fmt::Result {
        let instant = Timestamp::from_second(i64::from(self.0)).unwrap();
        let moment = Offset::UTC.to_datetime(instant);
        let date = moment.date();
        let time = moment.time();
        write!(f, "{date} {time}")
    }
}
