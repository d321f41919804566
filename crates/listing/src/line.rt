use crate::checks::judge;
use crate::seconds::Seconds;
use crate::utc::Utc;
use capture::Record;
use common::{Fault, Port};
use std::fmt;
use wire::Header;

// A record as it is printed: its frame's header, or the first check that the frame fails.
#[derive(Clone, Copy)]
pub(crate) struct Line {
    reading: u64,
    port: Port,
    pub(crate) finding: Result<Header, Fault>,
}

impl From<&Record<'_>> for Line {
    fn from(record: &Record<'_>) -> Line {
        Line {
            reading: record.reading,
            port: record.port,
            finding: judge(record.frame),
        }
    }
}

impl fmt::Display for Line {
    fn fmt<W: fmt::Write>(&self, f: &mut fmt::Formatter<W>) -> fmt::Result {
        let reading = Seconds(self.reading);
        let port = self.port;
        write!(f, "{reading}  {port:>4}  ")?;
        match self.finding {
            Ok(header) => show(header, f),
            Err(fault) => write!(f, "refused: {fault}"),
        }
    }
}

// Type, sender and time of a frame.
fn show<W: fmt::Write>(header: Header, f: &mut fmt::Formatter<W>) -> fmt::Result {
    let kind = header.kind;
    let id = header.id;
    let time = Utc(header.time.soc);
    let count = header.time.count;
    let quality = header.time.quality;
    write!(
        f,
        "{kind:<15}  ID {id:>5}  {time} UTC count {count:>8} quality {quality:02x}h"
    )
}
