//! Bytes that one hart alone touches: how they stay out of the lists of stores that a table of all endings is checked over.
#![tactic(auto)]

mod laws;

pub use laws::{
    earliest_private_move_is_lowest, early_loads_are_ahead, lower_states_are_ahead,
    private_tables_are_whole,
};
