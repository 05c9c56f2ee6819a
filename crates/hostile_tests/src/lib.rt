//! Tests of devices that fail: sinks and sources of whole calls.
#![tactic(auto)]

#[cfg(test)]
mod devices;
#[cfg(test)]
mod harness;
#[cfg(test)]
mod shown;
#[cfg(test)]
mod sinks;
#[cfg(test)]
mod sources;
