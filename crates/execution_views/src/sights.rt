use hart_step::Hart;

/// A step of a hart.
#[derive(Clone, Copy)]
pub struct HartStep {
    /// The hart.
    pub hart: u8,
    /// How many instructions the hart does before it.
    pub number: u64,
}

/// A hart before one of its steps.
#[derive(Clone, Copy, Drop)]
pub struct Before {
    /// The index of the step's instruction in the list of those of all harts.
    pub index: usize,
    /// The hart.
    pub hart: Hart,
}

/// What is seen of an execution on its way.
#[derive(Drop)]
pub struct Sights {
    /// For each instruction the pc of its hart before it.
    pub pcs: Vec<u64>,
    /// What is seen of the step that was asked for; `None` where its hart does no such step.
    pub before: Option<Before>,
}
