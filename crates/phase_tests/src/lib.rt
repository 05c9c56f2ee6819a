//! Tests of the three phases of a round and of the book that its workers share, through the public calls of the crates `parallel_phase`,
//! `hart_rounds`, `commit_phase` and `serial_phase`.
#![tactic(auto)]

#[cfg(test)]
mod books;
#[cfg(test)]
mod code;
#[cfg(test)]
mod commits;
#[cfg(test)]
mod rounds;
#[cfg(test)]
mod turns;
