/// The part of a document that is asked for.
#[derive(Clone, Copy)]
pub struct Window<'a> {
    /// The document.
    pub text: &'a [u8],
    /// Where the part begins.
    pub offset: u64,
    /// How many bytes it has at most.
    pub count: u64,
}
