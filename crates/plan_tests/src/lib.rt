// Plans filled from configuration frames: what is taken, what is refused, and what is published.
#![tactic(auto)]

#[cfg(test)]
mod absent;
#[cfg(test)]
mod bench;
#[cfg(test)]
mod build;
#[cfg(test)]
mod checks;
#[cfg(test)]
mod find;
#[cfg(test)]
mod lengths;
#[cfg(test)]
mod limits;
#[cfg(test)]
mod lines;
#[cfg(test)]
mod publish;
#[cfg(test)]
mod refusals;
#[cfg(test)]
mod worked;
