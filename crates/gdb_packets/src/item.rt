/// What a debugger says.
#[derive(Drop)]
pub enum Item {
    /// The last packet came.
    Accepted,
    /// The last packet is to be sent again.
    Again,
    /// The run is to stop.
    Interrupt,
    /// A packet with this payload.
    Packet(Vec<u8>),
    /// A packet that is to be sent again: the sum of its bytes is another, they stand for no payload, or it is too long.
    Spoilt,
}
