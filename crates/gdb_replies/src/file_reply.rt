/// What a debugger is told of files.
#[derive(Clone, Copy)]
pub enum FileReply<'a> {
    /// It is done. A file that was opened has this number, and else it is 0.
    Done(u64),
    /// It can't be done, for a reason by its number.
    Failed(u32),
    /// The file can be read, and has so many bytes.
    Status(u64),
    /// Bytes of the file.
    Bytes(&'a [u8]),
}
