use crate::pace::Pace;
use crate::report::Report;
use crate::written::WrittenSlot;
use anyhow::{Context, bail};
use capture::Record;
use choice::Simple;
use common::Fault;
use concentrator::{EARLIEST, LONGEST_STEP};
use feed::{Feed, LONGEST_FRAME};
use plan::Plan;
use policy::Policy;
use runs::{Call, Entry, Host, PulledFrame};
use std::alloc::Global;

// The longest time without a record that is played, in microseconds: a day.
const LONGEST_GAP: u64 = 86_400_000_000;

// More than the calls that can be due between two ticks, two for each slot (take, write) and for each frame
// (pull, take): 60 seconds have at most 7,200 slots, of which each of two boxes below can have a frame, and a
// capture at most 5,500 records.
const MOST_CALLS: u32 = 80_000;

// A host that is prompt: it writes each slot as soon as a tick or a pull has closed it.
pub struct Player<'a, F: Feed> {
    host: Host<F, Simple>,
    // where the buffers of its calls come from
    heap: Global,
    // the latest reading
    clock: u64,
    pace: Pace,
    report: Report<'a>,
}

impl<'a, F: Feed> Player<'a, F> {
    // A player of the plan over a feed.
    pub fn open(
        heap: Global,
        plan: &Plan,
        feed: F,
        pace: Pace,
        report: Report<'a>,
    ) -> Player<'a, F> {
        Player {
            host: Host::open(plan, feed, pace.policy, pace.first),
            heap,
            clock: pace.first,
            pace,
            report,
        }
    }

    // Reports the entry of a call: the clock goes on with a tick, what was pulled or written is shown, and a
    // refusal ends the play. That nothing waits is none.
    fn report(&mut self, rt: &impl Print, entry: &Entry) -> anyhow::Result<()> {
        match entry {
            Entry::Tick {
                reading,
                answer: Ok(()),
                ..
            } => {
                self.clock = *reading;
                Ok(())
            }
            Entry::Write {
                ticket,
                answer: Ok(frame),
                ..
            } => self.report.written(
                rt,
                WrittenSlot {
                    slot: *ticket,
                    reading: self.clock,
                    frame: frame.as_slice(),
                },
            ),
            Entry::Pull {
                answer: Ok(pulled),
                ..
            } => self.report.pulled(rt, self.clock, pulled),
            Entry::Pull {
                answer: Err(Fault::NothingWaits),
                ..
            } => Ok(()),
            Entry::Tick {
                answer: Err(fault),
                ..
            }
            | Entry::Write {
                answer: Err(fault),
                ..
            }
            | Entry::Pull {
                answer: Err(fault),
                ..
            } => Err(*fault).context("refused"),
            _ => Ok(()),
        }
    }

    // The call that is due after that of an entry, if any: slots that are closed are written before a frame is
    // pulled, and frames are pulled while one may wait. A frame that is refused closes no slot.
    fn due_after(&self, entry: &Entry) -> Option<Call<'static>> {
        let room = LONGEST_FRAME;
        match entry {
            Entry::Take { answer: Ok(ticket) } => Some(Call::Write {
                ticket: *ticket,
                room,
            }),
            Entry::Tick { .. }
            | Entry::Write { .. }
            | Entry::Pull {
                answer: Ok(
                    PulledFrame {
                        verdict: Ok(()),
                        ..
                    },
                ),
                ..
            } => Some(Call::Take),
            Entry::Take { answer: Err(_) } | Entry::Pull { answer: Ok(_), .. } => self
                .report
                .may_wait(self.clock)
                .then_some(Call::Pull { room }),
            _ => None,
        }
    }

    // Ticks, and makes the calls that are due then.
    fn tick(&mut self, rt: &impl Print, reading: u64) -> anyhow::Result<()> {
        let room = LONGEST_FRAME;
        let mut due = Some(Call::Tick { reading, room });
        // counted: a `while let` has to be proved to end, by following slots and frames through the calls
        for _ in 0..MOST_CALLS {
            let Some(call) = due else {
                return Ok(());
            };
            let entry = self.host.make(self.heap, call)?;
            self.report(rt, &entry)?;
            due = self.due_after(&entry);
        }
        bail!("more calls are due after a tick than can be")
    }

    // Ticks with a reading, and before it as often as no step is too long.
    fn tick_up_to(&mut self, rt: &impl Print, reading: u64) -> anyhow::Result<()> {
        if reading.saturating_sub(self.clock) > LONGEST_GAP {
            bail!("more than a day lies between two readings of the capture");
        }
        for clock in (self.clock..reading)
            .step_by(self.pace.step.clamp(1, LONGEST_STEP) as usize)
            .skip(1)
        {
            self.tick(rt, clock)?;
        }
        self.tick(rt, reading)
    }

    // Plays the capture, by each reading in it, and then goes on until every slot with a frame is closed
    // and written.
    fn play_out(&mut self, rt: &impl Print, records: &[Record]) -> anyhow::Result<()> {
        let mut last = None;
        for record in records {
            if last.replace(record.reading) != Some(record.reading) {
                self.tick_up_to(rt, record.reading)?;
            }
        }
        let rest = self.pace.policy.longest_wait().saturating_add(EARLIEST);
        self.tick_up_to(rt, self.clock.saturating_add(rest))
    }

    // Asks for the counts, and pulls once more: a frame that comes then was still waiting. In one run: by two
    // calls each entry would be taken apart by a let-else of its own.
    fn account(&mut self, rt: &impl Print) -> anyhow::Result<()> {
        let room = LONGEST_FRAME;
        let mut counted = None;
        let mut waits = false;
        for entry in self
            .host
            .run(self.heap, &[Call::Counts, Call::Pull { room }])?
        {
            match entry {
                Entry::Counts { answer } => counted = answer.ok(),
                Entry::Pull { answer, .. } => waits = answer.is_ok(),
                _ => {}
            }
        }
        let counts = counted.context("nothing was counted")?;
        self.report.account(rt, counts, waits)
    }

    // Plays the capture to its end, and reports it.
    fn play_and_report(&mut self, rt: &impl Print, records: &[Record]) -> anyhow::Result<()> {
        if let Err(fault) = self.host.check() {
            return self.report.shut(rt, fault);
        }
        self.report.begin(rt, self.pace.policy.longest_wait())?;
        let outcome = self.play_out(rt, records);
        self.report.end(rt)?;
        outcome?;
        self.account(rt)
    }
}

impl<F: Feed + Drop> Player<'_, F> {
    // Plays the capture to its end, and lets the host go.
    pub fn play(mut self, rt: &impl Print, records: &[Record]) -> anyhow::Result<()> {
        let outcome = self.play_and_report(rt, records);
        let Player {
            host,
            heap: _,
            clock: _,
            pace: _,
            report: _,
        } = self;
        host.close();
        outcome
    }
}
