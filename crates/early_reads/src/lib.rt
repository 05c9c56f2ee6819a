//! What a hart may load early, as it is known from the code: before a time at or behind which it did something.
#![tactic(auto)]

mod checking;
mod coming_access;
mod constants;
mod early_bytes;
mod early_point;
mod flow;
mod laws;
mod leading;
mod making;
mod shutting;

pub use checking::is_right;
pub use coming_access::{access_over, knows_address};
pub use constants::agrees_there;
pub use early_bytes::{bytes_at, leaves_out};
pub use early_point::{EarlyBytes, EarlyPoint, EarlySets, LateKinds, LoadedBytes};
pub use flow::{Flow, flow_of};
pub use laws::{late_operations_open, loads_are_current, loads_stay_only};
pub use making::map_code;
pub use shutting::is_shut;
