use round_schedule::Event;

/// The box of an event: where the event stands in the trace, how many in a row are the same load, and how far from the top the box
/// stands.
#[derive(Clone, Copy)]
pub struct EventBox {
    pub index: usize,
    pub event: Event,
    pub times: u64,
    pub top: u32,
}
