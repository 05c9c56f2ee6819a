//! What it is that a table has the ending of every execution of an image, and the laws towards a search that says so.
#![tactic(auto)]

mod laws;

pub use laws::{
    actions_are_local, actions_are_local_but_data, bounds_suffice, closed_lists_have_all,
    closed_tables_are_whole, destinations_are_written, earlier_moves_are_lower, ends_are_last,
    harts_have_runs, judged_executions_count, known_sources_act, loads_are_determined,
    loads_read_in_time, lower_states_do_as_much, operations_stand_in_time, registers_are_registers,
    rules_bound_times, runs_start_there, steps_are_local, stops_are_known, stores_stand_at_times,
    walked_tables_are_whole, what_was_seen_stays, writes_keep_refining,
};
