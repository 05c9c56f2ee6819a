//! Lists of stores of which some are laid into memory: runs against those that stay, over what the others left.
#![tactic(auto)]

mod laws;

pub use laws::{
    current_runs_are_of_those_kept, first_node_serves, late_debts_are_lost,
    longer_lists_are_served, moves_are_kept, node_tables_are_whole, raised_nodes_serve,
    runs_are_kept, settled_walks_come_past, standing_nodes_serve, touched_debts_are_lost,
};
