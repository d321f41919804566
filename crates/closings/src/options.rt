use anyhow::bail;
use listing::Waits;
use std::env;

// The waits that the program's arguments give. `replay` has such a loop too, with words of its own: a loop
// in common would take those and the usage from outside, and be no shorter.
pub fn read_waits(rt: &HostRuntime) -> anyhow::Result<Waits> {
    let mut waits = Waits::usual();
    let mut words = env::args(rt)?;
    let _program = words.next();
    while let Some(word) = words.next() {
        if !waits.take(word.as_str(), &mut words)? {
            bail!("usage: closings [--wait MICROSECONDS] [--relative MICROSECONDS] < CAPTURE");
        }
    }
    Ok(waits)
}
