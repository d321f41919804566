ghost use Rattle.std.specs.Prelude.{◌≡◌, ◌≤◌};
ghost use Rattle.common.specs.declared.fault.Fault.TheVariants.{StationLength};
ghost use Rattle.config.specs.Configs.{configured, listed_by, past_limits, says_by};
ghost use Rattle.config.specs.Stations.{few, part_length, station_at, stations_in};
ghost use Rattle.fields.specs.Fields.{be16, field};
ghost use Rattle.std.specs.Option.{ok_or};

use crate::config::Config;
use crate::format::Format;
use crate::station::Station;
use crate::stations::{MOST_STATIONS, Stations, no_stations};
use common::{Fault, IdCode};
use fields::{u16_at, u24_at};

// A field of the station with the number `station`.
fn field_of(part: &[u8], at: usize, station: u16) -> Result<u16, Fault>
    ensures { result ≡ ok_or (field part.now at 2 (be16 part.now at)) (StationLength station) }
{
    u16_at(part, at).ok_or(Fault::StationLength { station })
}

impl Station {
    // The length of the part of a configuration that describes the station.
    pub fn part_len(&self) -> usize
        ensures { result ≡ part_length self.now }
    {
        30 + 20 * usize::from(self.phasors)
            + 20 * usize::from(self.analogs)
            + 260 * usize::from(self.digitals)
    }

    // Whether there are no more channels than a station may have.
    fn has_few_channels(&self) -> bool
        ensures { result ≡ few self.now }
    {
        self.phasors <= 32 && self.analogs <= 16 && self.digitals <= 4
    }

    // The station, number `k`, whose part begins the bytes.
    fn read(part: &[u8], k: u16) -> Result<Station, Fault>
        ensures { result ≡ station_at part.now k }
    {
        let id = field_of(part, 16, k)?;
        let format = field_of(part, 18, k)?;
        let phasors = field_of(part, 20, k)?;
        let analogs = field_of(part, 22, k)?;
        let digitals = field_of(part, 24, k)?;
        let station = Station {
            id: IdCode(id),
            format: Format(format),
            phasors,
            analogs,
            digitals,
        };
        if !station.has_few_channels() {
            return Err(Fault::StationLimit { station: k });
        }
        if station.id.is_reserved() {
            return Err(Fault::IdCode);
        }
        if part.len() < station.part_len() {
            return Err(Fault::StationLength { station: k });
        }
        Ok(station)
    }
}

// The `count` stations that the parts describe, with nothing behind them.
fn read_stations(parts: &[u8], count: u16) -> Result<Stations, Fault>
    requires { count ≤ 32 }
    ensures { listed_by result ≡ stations_in count 0 parts.now }
{
    let mut stations = no_stations();
    // Where a part ends stands in the part, so the rest is cut step by step.
    let mut rest = parts;
    for k in 0..count {
        let station = Station::read(rest, k)?;
        // At most 32 parts are read, so there is room, and the answer that there was is let go.
        stations.push(station);
        rest = &rest[station.part_len()..];
    }
    if !rest.is_empty() {
        return Err(Fault::StationLength { station: count });
    }
    Ok(stations)
}

// Whether a time base or a number of stations is out of range.
fn is_past_limits(time_base: u32, count: u16, most: u16) -> bool
    ensures { result ≡ past_limits time_base count most }
{
    time_base < 1_000 || count < 1 || usize::from(count) > usize::from(most).min(MOST_STATIONS)
}

impl Config {
    // What the body of a configuration says, of which at most `most` stations are taken, and never
    // more than 32.
    pub fn read(body: &[u8], most: u16) -> Result<Config, Fault>
        ensures { says_by result ≡ configured body.now most }
    {
        let short = Fault::StationLength { station: 0 };
        if body.len() < 8 {
            return Err(short);
        }
        let time_base = u24_at(body, 1).ok_or(short)?;
        let count = u16_at(body, 4).ok_or(short)?;
        if is_past_limits(time_base, count, most) {
            return Err(Fault::StationLimit { station: 0 });
        }
        let end = body.len() - 2;
        let stations = read_stations(&body[6..end], count)?;
        let rate = u16_at(body, end).ok_or(short)?;
        Ok(Config {
            time_base,
            stations,
            rate,
        })
    }
}
