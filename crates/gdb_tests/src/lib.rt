//! Tests of what a debugger says, asks for and is answered, through the public calls of the crates.
#![tactic(auto)]

#[cfg(test)]
mod packets;
#[cfg(test)]
mod replies;
#[cfg(test)]
mod requests;
