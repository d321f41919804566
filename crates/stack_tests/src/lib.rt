// Concentrators under others: what waits at one, two of them under a third, and three one under the other.
#![tactic(auto)]

#[cfg(test)]
mod build;
#[cfg(test)]
mod deep;
#[cfg(test)]
mod lagging;
#[cfg(test)]
mod shut;
#[cfg(test)]
mod steps;
#[cfg(test)]
mod upper;
#[cfg(test)]
mod waiting;
