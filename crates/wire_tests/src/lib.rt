// Frames told apart, written and refused: the standard's worked frames, and tables of damaged ones.
#![tactic(auto)]

#[cfg(test)]
mod damaged;
#[cfg(test)]
mod numbers;
#[cfg(test)]
mod printed;
#[cfg(test)]
mod worked;
#[cfg(test)]
mod written;
