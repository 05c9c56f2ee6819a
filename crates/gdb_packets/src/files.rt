ghost use Rattle.std.specs.Prelude.{◌≡◌};
ghost use Rattle.gdb_packets.specs.Files.{after_name, file_of, image_name, name_of};
ghost use Rattle.gdb_packets.specs.Fields.{behind_spelled, number_from};

use crate::fields::{behind, behind_spelled, number_from, three_numbers, two_numbers};
use crate::file_request::FileRequest;
use crate::request::Request;

/// The name of the program's image.
pub const IMAGE_NAME: &[u8] = b"/recording/image";

/// The name of the program's image, behind `qXfer:exec-file:read:`.
pub(crate) fn name_of(text: &[u8]) -> Request
    ensures { result ≡ name_of (number_from 0 text.now) }
{
    let Some((_, rest)) = number_from(0, text) else {
        return Request::Unknown;
    };
    let Some(rest) = behind(b":", rest) else {
        return Request::Unknown;
    };
    match two_numbers(rest) {
        Some((offset, count)) => Request::ImageName(offset, count),
        None => Request::Unknown,
    }
}

/// Something of files, behind its `vFile:`.
pub(crate) fn file_of(text: &[u8]) -> Request
    ensures { result ≡ file_of text.now }
{
    if let Some(_) = behind(b"setfs:", text) {
        return Request::File(FileRequest::Root);
    }
    if let Some(rest) = behind(b"open:", text) {
        return Request::File(opened(rest));
    }
    if let Some(rest) = behind(b"fstat:", text) {
        return match number_from(0, rest) {
            Some((file, _)) => Request::File(FileRequest::Describe(file)),
            None => Request::Unknown,
        };
    }
    if let Some(rest) = behind(b"pread:", text) {
        return match three_numbers(rest) {
            Some((file, count, offset)) => Request::File(FileRequest::Read(file, count, offset)),
            None => Request::Unknown,
        };
    }
    if let Some(rest) = behind(b"close:", text) {
        return match number_from(0, rest) {
            Some((file, _)) => Request::File(FileRequest::Close(file)),
            None => Request::Unknown,
        };
    }
    Request::Unknown
}

/// A file that is to be opened, by its name.
fn opened(text: &[u8]) -> FileRequest
    ensures { result ≡ after_name (behind_spelled image_name text.now) }
{
    let Some(rest) = behind_spelled(IMAGE_NAME, text) else {
        return FileRequest::OpenOther;
    };
    match behind(b",", rest) {
        Some(_) => FileRequest::OpenImage,
        None => FileRequest::OpenOther,
    }
}
