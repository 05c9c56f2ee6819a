//! Tests of the search for all endings, through the public calls of its crate.
#![tactic(auto)]

#[cfg(test)]
mod store_buffering;
