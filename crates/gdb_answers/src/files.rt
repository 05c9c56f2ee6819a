//! The program's image, as a file.

ghost use Rattle.std.specs.Prelude.{◌≡◌, take, drop};
ghost use Rattle.std.specs.Option.{option_map};
ghost use Rattle.gdb_replies.specs.FileReplies.{file_text};
ghost use Rattle.gdb_answers.specs.Files.{file_answer, open_answer, opened};

use gdb_packets::FileRequest;
use gdb_replies::FileReply;

/// The number of the image, as an open file.
const IMAGE: u64 = 1;

/// The most bytes that are told at once, so that a reply of bytes that each need two is no longer than a packet may be.
pub(crate) const MOST_READ: u64 = 32_000;

/// The number of the error that there is no such file.
const NO_SUCH_FILE: u32 = 2;

/// The number of the error that no file is open by this number.
const NOT_OPEN: u32 = 9;

/// What is answered about files, where the program's image is told, or isn't.
pub fn file_reply<'a>(image: Option<&'a [u8]>, request: FileRequest) -> FileReply<'a>
    ensures { file_text result ≡ file_answer (option_map (λ bytes. bytes.now) image.entry) request }
{
    match request {
        FileRequest::Root => FileReply::Done(0),
        FileRequest::OpenImage => open_reply(image),
        FileRequest::OpenOther => FileReply::Failed(NO_SUCH_FILE),
        FileRequest::Describe(file) => match opened(image, file) {
            Some(bytes) => FileReply::Status(bytes.len() as u64),
            None => FileReply::Failed(NOT_OPEN),
        },
        FileRequest::Read(file, count, offset) => match opened(image, file) {
            Some(bytes) => FileReply::Bytes(part(bytes, count.min(MOST_READ), offset)),
            None => FileReply::Failed(NOT_OPEN),
        },
        FileRequest::Close(file) => match opened(image, file) {
            Some(_) => FileReply::Done(0),
            None => FileReply::Failed(NOT_OPEN),
        },
    }
}

/// What is answered where the image is to be opened.
fn open_reply<'a>(image: Option<&'a [u8]>) -> FileReply<'a>
    ensures { file_text result ≡ open_answer (option_map (λ bytes. bytes.now) image.entry) }
{
    match image {
        Some(_) => FileReply::Done(IMAGE),
        None => FileReply::Failed(NO_SUCH_FILE),
    }
}

/// The image, by its number as an open file.
fn opened<'a>(image: Option<&'a [u8]>, file: u64) -> Option<&'a [u8]>
    ensures { option_map (λ bytes. bytes.now) result ≡
        opened (option_map (λ bytes. bytes.now) image.entry) file }
{
    if file == IMAGE { image } else { None }
}

/// At most so many bytes from an offset on.
fn part<'a>(bytes: &'a [u8], count: u64, offset: u64) -> &'a [u8]
    ensures { result.now ≡ take count (drop offset bytes.now) }
{
    let length = bytes.len() as u64;
    let start = offset.min(length);
    let count = count.min(length - start);
    &bytes[start as usize..(start + count) as usize]
}
