/// The answer of an instruction without its access, which stands elsewhere: two bytes, where `Stepped` is large.
#[derive(Clone, Copy)]
pub enum Answer {
    /// It is done.
    Went,
    /// It has to wait for the serial phase, and changed nothing.
    Waited,
    /// It stopped its hart with this code, and changed nothing else.
    Halted(u8),
}
