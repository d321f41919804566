// Slots at the edges of rates, time bases, counts and readings, and when they close.
#![tactic(auto)]

#[cfg(test)]
mod align;
#[cfg(test)]
mod times;
#[cfg(test)]
mod waits;
