// A box in the hands of a host: its size, and tickets of another box.
#![tactic(auto)]

#[cfg(test)]
mod build;
#[cfg(test)]
mod sizes;
#[cfg(test)]
mod tickets;
