// Feeds of each kind, by themselves and piled up.
#![tactic(auto)]

#[cfg(test)]
mod buffers;
#[cfg(test)]
mod build;
#[cfg(test)]
mod captures;
#[cfg(test)]
mod joins;
#[cfg(test)]
mod piles;
#[cfg(test)]
mod shifts;
#[cfg(test)]
mod steps;
