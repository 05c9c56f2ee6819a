use hart_step::Hart;
use picture::Site;
use round_schedule::Event;

/// What is drawn: an execution that RVWMO allows in an order, and what is known of its operations beside it.
#[derive(Clone, Copy)]
pub struct ExecutionScene<'a> {
    /// What the instructions of all harts did, each hart's in the order of its program.
    pub events: &'a [Event],
    /// The order of the memory operations, by their indexes among these.
    pub order: &'a [usize],
    /// The positions in the order whose operations are drawn, in rising order. The first 400 of them are.
    pub positions: &'a [usize],
    /// What is known of the operation at each of these positions.
    pub sites: &'a [Site<'a>],
    /// The harts as the execution ends.
    pub harts: &'a [Hart],
}

impl ExecutionScene<'_> {
    /// The operation at a position of the order, with its index.
    pub(crate) fn operation(&self, position: usize) -> Option<(usize, Event)> {
        let index = *self.order.get(position)?;
        let event = *self.events.get(index)?;
        Some((index, event))
    }
}
