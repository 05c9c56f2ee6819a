//! Tests of the machine by whole guest programs, and of what is copied and kept of a run, through the public calls of the crates
//! `machine`, `past_harts` and `replayer`.
#![tactic(auto)]

#[cfg(test)]
mod checkpoints;
#[cfg(test)]
mod copies;
#[cfg(test)]
mod gates;
#[cfg(test)]
mod harness;
#[cfg(test)]
mod images;
#[cfg(test)]
mod long_rounds;
#[cfg(test)]
mod rounds;
#[cfg(test)]
mod untraced;
#[cfg(test)]
mod workers;
