ghost use Rattle.store_buffer.specs.Laws.{BytesKeepHistory};

/// The bytes of a buffer that took some stores leave what those stores leave, and cover what they cover.
pub fn bytes_keep_history()
    ensures { BytesKeepHistory }
{}
