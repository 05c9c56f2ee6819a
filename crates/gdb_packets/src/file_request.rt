/// What a debugger asks of files. Open files have numbers.
#[derive(Clone, Copy, PartialEq)]
pub enum FileRequest {
    /// Files are those of some process from now on.
    Root,
    /// The program's image is to be opened.
    OpenImage,
    /// Another file is.
    OpenOther,
    /// What is said of this open file.
    Describe(u64),
    /// Of this open file so many bytes, from an offset on.
    Read(u64, u64, u64),
    /// This open file is to be closed.
    Close(u64),
}
