/// What is to be marked of an event.
#[derive(Clone, Copy)]
pub enum Mark {
    /// A store that another hart overwrote, and that nobody read: so a lost update looks.
    Lost,
    /// A store that its own hart overwrote, and that nobody read.
    Unread,
    /// Neither.
    Plain,
}
