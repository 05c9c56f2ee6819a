/// What a guest is given: its program, and what it can read.
#[derive(Clone, Copy)]
pub struct GuestFiles<'a> {
    /// The bytes of the image, an ELF file or a flat one.
    pub image: &'a [u8],
    /// The bytes that the call 'get' gives it.
    pub input: &'a [u8],
}
