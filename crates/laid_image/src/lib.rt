//! Guest programs laid into memory and decoded once, for many runs to begin with.
#![tactic(auto)]

mod laid;

pub use laid::LaidImage;
