//! Tests of the machine's parts, through their public calls: of words, of single instructions and of a hart's rounds (`rv64_decode` and
//! `hart_step`), of guest memory (`pages`), of store buffers (`store_buffer`) and of reservations (`round_schedule`).
#![tactic(auto)]

#[cfg(test)]
mod arithmetic;
#[cfg(test)]
mod atomics;
#[cfg(test)]
mod buffered;
#[cfg(test)]
mod guest_memory;
#[cfg(test)]
mod harness;
#[cfg(test)]
mod loads;
#[cfg(test)]
mod memory_and_stops;
#[cfg(test)]
mod reserved;
#[cfg(test)]
mod rounds;
#[cfg(test)]
mod sparse;
#[cfg(test)]
mod words;
