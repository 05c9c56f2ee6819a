ghost use Rattle.std.specs.Prelude.{◌≡◌, ◌≤◌, [], length, vec_capacity, IfOk};
ghost use Rattle.pages.specs.Flat.{blank};

use crate::OutOfMemory;
use crate::part::PAGE_BYTES;
use std::alloc::Global;
use std::marker::Model;

/// Room for the bytes of a page. Nothing is written to it before a page takes it, so that one that is kept ready and never
/// taken costs a request for memory alone.
#[derive(Drop)]
pub(crate) struct Spare {
    room: Vec<u8>,
}

impl Model for Spare {
    ghost Value = { Unit {0} };

    ghost view = { λ _. tt };

    ghost invariant = { λ s. (s.room.items ≡ []) × (4096 ≤ vec_capacity s.room) };
}

impl Spare {
    /// Room for a page.
    pub(crate) fn new(alloc: Global) -> Result<Spare, OutOfMemory> {
        Ok(Spare {
            room: Vec::with_capacity(alloc, PAGE_BYTES)?,
        })
    }

    /// The room with 4096 bytes, each 0. It takes no memory.
    pub(crate) fn zeroed(self) -> Vec<u8>
        ensures bytes { result.items ≡ blank }
        ensures length { length result.items ≡ 4096 }
    {
        let mut bytes = self.room;
        match bytes.resize(PAGE_BYTES, 0) {
            Ok(()) => bytes,
            Err(_) => unreachable!(),
        }
    }

    /// The room with these bytes of a page. It takes no memory.
    pub(crate) fn holding(self, page: &[u8]) -> Vec<u8>
        requires { length page.now ≡ 4096 }
        ensures bytes { result.items ≡ page.now }
        ensures length { length result.items ≡ 4096 }
    {
        let mut bytes = self.room;
        match bytes.extend_from_slice(page) {
            Ok(()) => bytes,
            Err(_) => unreachable!(),
        }
    }
}
