use crate::arrivals::Arrivals;
use crate::closing::Closing;
use crate::placing::{data_time, slot_of};
use capture::Record;
use choice::Simple;
use listing::Build;
use policy::Policy;
use slots::Rate;

// Each data frame with its slot, the slot's stamp, and when the slot would close by its first arrival.
fn show_frames(
    rt: &HostRuntime,
    records: &[Record],
    build: &Build,
    rate: Rate,
    policy: Simple,
) -> anyhow::Result<()> {
    let mut arrivals = Arrivals::new(rt.alloc());
    for (number, record) in (1usize..).zip(records) {
        let Some(time) = data_time(record.frame) else {
            continue;
        };
        let line = record.port;
        print!(rt; "{number:>5}  {line:>4}  ")?;
        match slot_of(build, rate, line, time) {
            Ok(slot) => {
                let arrival = arrivals.take(slot, record.reading)?;
                let closing = Closing::of(&policy, rate, slot, arrival);
                println!(rt; "{closing}")?;
            }
            Err(fault) => println!(rt; "refused: {fault}")?,
        }
    }
    Ok(())
}

// The slots of the capture's data frames, and when each would close under the policy.
pub fn show_slots(
    rt: &HostRuntime,
    records: &[Record],
    build: &Build,
    policy: Simple,
) -> anyhow::Result<()> {
    println!(rt)?;
    let Some(rate) = Rate::new(build.plan.rate()) else {
        println!(rt; "no slots: the rate is not from 1 to 120")?;
        return Ok(());
    };
    let wait = policy.longest_wait();
    println!(rt; "slots: closed at most {wait} microseconds after their stamps")?;
    println!(rt;
        "    #  line             slot  {:>23}  {:>23}",
        "stamp", "closes"
    )?;
    show_frames(rt, records, build, rate, policy)
}
