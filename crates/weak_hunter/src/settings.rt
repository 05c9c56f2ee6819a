use hunter::HuntSettings;

/// What a weak hunt is asked for.
#[derive(Clone, Copy)]
pub struct WeakHunt<'a> {
    /// The guest, and the numbers of its executions.
    pub settings: &'a HuntSettings,
    /// How many steps an execution has at most.
    pub steps: u32,
}
