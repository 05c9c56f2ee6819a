use crate::time::{ByteSources, Time};
use access_times::Bytes;
use pages::Width;

/// The reservation that a hart's LR left it.
#[derive(Clone, Copy)]
pub struct Reserved {
    /// The address.
    pub address: u64,
    /// The width.
    pub width: Width,
    /// What the LR read.
    pub sources: ByteSources,
    /// Its time.
    pub time: Time,
    /// Whether other harts touch its bytes.
    pub is_shared: bool,
}

impl Reserved {
    /// Its bytes.
    pub fn bytes(&self) -> Bytes {
        Bytes::of(self.address, self.width)
    }
}
