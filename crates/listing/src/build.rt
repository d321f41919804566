ghost use Rattle.listing.specs.Builds.{after_line, after_lines, bytes_by, outcome_of, outcomes, published};
ghost use Rattle.listing.specs.Lines.{first_config as first_config_of, is_used as used, last_reading as last_reading_of};
ghost use Rattle.plan.specs.Views.{plan_of};
ghost use Rattle.std.specs.Prelude.{◌≡◌, IfOk};

use crate::find::{LINES, first_config, first_rate, is_used};
use capture::Record;
use common::{Fault, IdCode, Port};
use plan::Plan;
use std::alloc::{AllocError, Global};

// Room for the longest configuration that a plan can make.
const ROOM: usize = 40_024;

// What became of a line of the capture: one of four things, each with a name, which an Option of an
// Option or of a Result would not tell.
#[derive(Clone, Copy)]
pub enum Outcome {
    // No record came by it.
    Unused,
    // Records came, but no configuration.
    NoConfiguration,
    // Its first configuration was refused, and the line is left out.
    Refused(Fault),
    // Its first configuration filled this port of the plan.
    Filled(Port),
}

// What the configurations of a capture make.
#[derive(Drop)]
pub struct Build {
    pub plan: Plan,
    // what became of each line
    pub lines: Vec<Outcome>,
    // the combined configuration, published at the last reading
    pub combined: Result<Vec<u8>, Fault>,
}

// The last reading, or 0 where there is no record: any reading does then, since no port is filled.
fn last_reading(records: &[Record]) -> u64
    ensures { result ≡ last_reading_of records.now }
{
    records.last().map_or(0, |record| record.reading)
}

// Fills the next port from the line's first configuration.
#[tactic(auto, unfolding(crate::specs::Builds::after_line, crate::specs::Builds::outcome_of))]
fn add_line(plan: &mut Plan, records: &[Record], line: Port, buffer: &mut [u8]) -> Outcome
    ensures answer { result ≡ outcome_of (record { plan = plan_of plan.old; buffer = buffer.old }) (first_config_of records.now line.0) (used records.now line.0) }
    ensures plan { plan_of plan.new ≡ (after_line (record { plan = plan_of plan.old; buffer = buffer.old }) (first_config_of records.now line.0)).plan }
    ensures after { buffer.new ≡ (after_line (record { plan = plan_of plan.old; buffer = buffer.old }) (first_config_of records.now line.0)).buffer }
{
    match first_config(records, line) {
        Some(record) => match plan.add(record.frame, buffer) {
            Ok(port) => Outcome::Filled(port),
            Err(fault) => Outcome::Refused(fault),
        },
        None if is_used(records, line) => Outcome::NoConfiguration,
        None => Outcome::Unused,
    }
}

// The combined configuration, published into the buffer that the ports were added with.
fn publish(plan: &Plan, reading: u64, mut buffer: Vec<u8>) -> Result<Vec<u8>, Fault>
    ensures { bytes_by result ≡ published (record { plan = plan_of plan.now; buffer = buffer.items }) reading }
{
    let size = plan.publish(reading, &mut buffer)?;
    buffer.truncate(size);
    Ok(buffer)
}

impl Build {
    // A plan of the first configuration of each line, in the order of the lines, at the rate of
    // the lowest line that has one. The combined stream is sent under the code `id`.
    pub fn of(alloc: Global, records: &[Record], id: IdCode) -> Result<Build, AllocError>
        ensures plan { IfOk result (λ b. plan_of b.plan ≡ (after_lines id.0 records.now 16).plan) }
        ensures lines { IfOk result (λ b. b.lines.items ≡ outcomes id.0 records.now 16) }
        ensures combined { IfOk result (λ b. bytes_by b.combined ≡ published (after_lines id.0 records.now 16) (last_reading_of records.now)) }
    {
        let mut buffer = vec![in alloc; 0; ROOM]?;
        // where no line has a configuration the rate is 0: it is printed like any other, and no slot comes of it
        let mut plan = Plan::begin(id, first_rate(records).unwrap_or(0));
        let mut lines = Vec::new(alloc);
        for line in 0..LINES {
            lines.push(add_line(&mut plan, records, Port(line), &mut buffer))?;
        }
        let combined = publish(&plan, last_reading(records), buffer);
        Ok(Build {
            plan,
            lines,
            combined,
        })
    }
}
