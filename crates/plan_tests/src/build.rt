use common::IdCode;
use config::{Format, Station};
use std::alloc::{AllocError, Global};
use wire::seal;

// The rate of the frames that are built.
pub(crate) const RATE: u16 = 30;

// A station without channels: a part of 30 bytes, and a data block of 6.
pub(crate) const BARE: Station = Station {
    id: IdCode(9),
    format: Format(0),
    phasors: 0,
    analogs: 0,
    digitals: 0,
};

pub(crate) fn station(id: u16, format: u16, channels: (u16, u16, u16)) -> Station {
    let (phasors, analogs, digitals) = channels;
    Station {
        id: IdCode(id),
        format: Format(format),
        phasors,
        analogs,
        digitals,
    }
}

// A configuration frame that is put together byte by byte, sound or not.
#[derive(Drop)]
pub(crate) struct Builder {
    bytes: Vec<u8>,
}

impl Builder {
    // The frame of the sender `id` up to its station parts. The time base is 1000.
    pub(crate) fn new(heap: Global, id: u16, count: u16) -> Result<Builder, AllocError> {
        let mut bytes = [0xaa, 0x32, 0, 0].to_vec(heap)?;
        bytes.extend_from_slice(&id.to_be_bytes())?;
        // SOC, quality, count, and TIME_BASE
        bytes.extend_from_slice(&[0x65, 0x53, 0xf1, 0, 0x0f, 0, 0, 0x21])?;
        bytes.extend_from_slice(&[0, 0, 0x03, 0xe8])?;
        bytes.extend_from_slice(&count.to_be_bytes())?;
        Ok(Builder { bytes })
    }

    // One station part more. Its names are filled with the low byte of the station's code.
    pub(crate) fn part(&mut self, station: Station) -> Result<(), AllocError> {
        let mark = (station.id.0 % 256) as u8;
        self.fill(16, mark)?;
        for word in [
            station.id.0,
            station.format.0,
            station.phasors,
            station.analogs,
            station.digitals,
        ] {
            self.bytes.extend_from_slice(&word.to_be_bytes())?;
        }
        let phasors = usize::from(station.phasors);
        let analogs = usize::from(station.analogs);
        let digitals = usize::from(station.digitals);
        // the names, the units, FNOM and CFGCNT
        self.fill(16 * (phasors + analogs + 16 * digitals), mark)?;
        self.fill(4 * (phasors + analogs + digitals), 0x77)?;
        self.fill(4, 0x01)
    }

    fn fill(&mut self, n: usize, byte: u8) -> Result<(), AllocError> {
        let end = self.bytes.len().saturating_add(n);
        self.bytes.resize(end, byte)
    }

    // Cuts or pads the frame to `n` bytes.
    pub(crate) fn resize(&mut self, n: usize) -> Result<(), AllocError> {
        self.bytes.resize(n, 0)
    }

    // Ends the frame with its rate and check word, and makes FRAMESIZE its length.
    pub(crate) fn end(self) -> Result<Vec<u8>, AllocError> {
        let Builder { mut bytes } = self;
        bytes.extend_from_slice(&RATE.to_be_bytes())?;
        bytes.extend_from_slice(&[0, 0])?;
        let size = (bytes.len() % 65_536) as u16;
        if let [_, _, high, low, ..] = bytes.as_mut_slice() {
            [*high, *low] = size.to_be_bytes();
        }
        seal(bytes.as_mut_slice());
        Ok(bytes)
    }
}

// The sound frame of a sender and its stations.
pub(crate) fn line(heap: Global, id: u16, stations: &[Station]) -> Result<Vec<u8>, AllocError> {
    let count = (stations.len() % 65_536) as u16;
    let mut frame = Builder::new(heap, id, count)?;
    for station in stations {
        frame.part(*station)?;
    }
    frame.end()
}
