//! Tests of traces, of the order by rounds, and of the checker, through the public calls of the crates
//! `trace` and `memory_order`.
#![tactic(auto)]

#[cfg(test)]
mod checks;
#[cfg(test)]
mod logs;
#[cfg(test)]
mod made;
#[cfg(test)]
mod traces;
