use early_loads::GuestCode;
use hart_step::Hart;
use run_states::Opened;
use store_lists::{Sharing, StoreList};

/// A guest program, as its harts find it.
#[derive(Drop)]
pub struct Guest {
    /// Its memory and its code.
    pub code: GuestCode,
    /// What it reads.
    pub input: Vec<u8>,
    /// Its harts before their first instructions.
    pub harts: Vec<Hart>,
    /// How many instructions of a run are followed.
    pub most_steps: u64,
}

/// Against what a hart runs.
#[derive(Clone, Copy)]
pub struct Against<'a> {
    /// The guest.
    pub guest: &'a Guest,
    /// The stores to shared bytes.
    pub list: &'a StoreList,
    /// The hart.
    pub hart: u8,
}
