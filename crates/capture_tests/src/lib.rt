// Captures at the limits of their format, and past them.
#![tactic(auto)]

#[cfg(test)]
mod count;
#[cfg(test)]
mod limits;
#[cfg(test)]
mod order;
