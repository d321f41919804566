ghost use Rattle.std.specs.Prelude.{◌≡◌, false, length, Ok, IfOk};
ghost use Rattle.plan.specs.Plans.{add_answer, add_buffer, add_plan, adds, asked, begun, bodied, full, numbered, own, parts_in, with_room};
ghost use Rattle.plan.specs.Tables.{port_of, ports_of};
ghost use Rattle.plan.specs.Views.{requested_by, passing, plan_of, port_by};

use crate::plan::{BEHIND_PARTS, PARTS_AT, Plan};
use crate::record::Record;
use crate::request::Request;
use crate::span::Span;
use crate::table::no_ports;
use common::{Fault, IdCode, LONGEST_BODY, Port};
use config::{Config, MOST_STATIONS};
use fixed::FixedList;
use layout::data_len;
use wire::Frame;

// The most stations that one line may bring.
const MOST_STATIONS_A_LINE: u16 = 8;

// The record that a configuration's body asks for, of the sender `id`, at a rate.
fn read_body(body: &[u8], id: IdCode, rate: u16) -> Result<Record, Fault>
    ensures { port_by result ≡ bodied rate id.0 (Ok body.now) }
{
    if id.is_reserved() {
        return Err(Fault::IdCode);
    }
    let config = Config::read(body, MOST_STATIONS_A_LINE)?;
    if config.rate != rate {
        return Err(Fault::Rate);
    }
    Ok(Record {
        id,
        time_base: config.time_base,
        stations: config.stations,
    })
}

// The record that a configuration frame asks for, at a rate.
fn read_record(bytes: &[u8], rate: u16) -> Result<Record, Fault>
    ensures { port_by result ≡ asked rate bytes.now }
{
    let (header, frame) = Frame::read_headed(bytes)?;
    let body = frame.config2()?;
    read_body(body, header.id, rate)
}

// What a configuration frame asks for, at a rate.
fn read_request(bytes: &[u8], rate: u16) -> Result<Request<'_>, Fault>
    ensures port { requested_by result ≡ asked rate bytes.now }
    ensures parts { IfOk result (λ request. request.parts.now ≡ parts_in bytes.now) }
{
    let port = read_record(bytes, rate)?;
    let parts = &bytes[PARTS_AT..bytes.len() - BEHIND_PARTS];
    Ok(Request { port, parts })
}

impl Plan {
    // A plan without ports. Any code and rate may be given; `add` refuses those that are out of range.
    pub fn begin(id: IdCode, rate: u16) -> Plan
        ensures { plan_of result ≡ begun id.0 rate }
    {
        Plan {
            id,
            rate,
            table: no_ports(),
            spans: FixedList::new(Span { at: 0, len: 0 }),
            stations: 0,
            body: 0,
            parts: 0,
        }
    }

    // Whether the plan's own code and rate are in range.
    fn check_own(&self) -> Result<(), Fault>
        ensures { result ≡ own (plan_of self.now) }
    {
        if self.id.is_reserved() {
            return Err(Fault::IdCode);
        }
        match self.rate {
            1..=120 => Ok(()),
            _ => Err(Fault::Rate),
        }
    }

    // Whether a limit of the plan leaves no room for one port more.
    fn is_full_for(&self, port: &Record) -> bool
        ensures { result ≡ full (ports_of self.now.table) (port_of port.now) }
    {
        self.table.is_full()
            || self.stations + port.stations.len() > MOST_STATIONS
            || self.body + data_len(&port.stations) > LONGEST_BODY
    }

    // Whether the limits of the plan, and then the buffer, leave room for what is asked for.
    fn check_room(&self, request: &Request, room: usize) -> Result<(), Fault>
        ensures { passing result (port_of request.now.port) ≡ with_room (ports_of self.now.table) room (Ok (port_of request.now.port)) }
    {
        if self.is_full_for(&request.port) {
            return Err(Fault::PlanFull);
        }
        if room < self.published_len() + request.parts.len() {
            return Err(Fault::Buffer);
        }
        Ok(())
    }

    // Takes the port that is asked for, for which there is room, and answers its number.
    fn place(&mut self, request: &Request) -> Port
        requires { full (ports_of self.old.table) (port_of request.now.port) ≡ false }
        ensures answer { result.0 ≡ length (ports_of self.old.table) }
        ensures plan { plan_of self.new ≡ add_plan (plan_of self.old) (Ok (port_of request.now.port)) }
    {
        let number = self.table.len();
        // There is room, so the answer that there was is let go.
        let len = data_len(&request.port.stations);
        self.table.push(request.port);
        self.spans.push(Span { at: self.body, len });
        self.stations += request.port.stations.len();
        self.body += len;
        self.parts += request.parts.len();
        // By `as`, which is itself proved to lose nothing, and is shorter than a proved `unwrap`.
        Port(number as u8)
    }

    // Fills the next port from a configuration frame, and copies its station parts into `buffer`
    // behind those of the ports before. A refusal changes neither plan nor buffer.
    pub fn add(&mut self, bytes: &[u8], buffer: &mut [u8]) -> Result<Port, Fault>
        ensures answer { numbered result ≡ add_answer (plan_of self.old) (adds (plan_of self.old) bytes.now (length buffer.old)) }
        ensures plan { plan_of self.new ≡ add_plan (plan_of self.old) (adds (plan_of self.old) bytes.now (length buffer.old)) }
        ensures after { buffer.new ≡ add_buffer (plan_of self.old) bytes.now (adds (plan_of self.old) bytes.now (length buffer.old)) buffer.old }
    {
        self.check_own()?;
        let request = read_request(bytes, self.rate)?;
        self.check_room(&request, buffer.len())?;
        let at = PARTS_AT + self.parts;
        buffer[at..at + request.parts.len()].copy_from_slice(request.parts);
        Ok(self.place(&request))
    }
}
