//! The unit of the sequence set that was read last.
ghost use Rattle.std.specs.Prelude.{◌≡◌, IfSome};

use std::alloc::Global;

/// A unit that was read as a sequence set. Where it is repeated byte for byte it isn't read again.
#[derive(Drop)]
pub(crate) struct ReadUnit {
    pub(crate) bytes: Vec<u8>,
    /// The id of the set.
    pub(crate) id: u8,
}

impl ReadUnit {
    /// A copy of a unit, unless an allocation fails.
    pub(crate) fn copy_of(alloc: Global, bytes: &[u8], id: u8) -> Option<ReadUnit>
        ensures bytes { IfSome result (λ unit. unit.bytes.items ≡ bytes.now) }
        ensures id { IfSome result (λ unit. unit.id ≡ id) }
    {
        match Vec::from_slice(alloc, bytes) {
            Ok(bytes) => Some(ReadUnit { bytes, id }),
            Err(_) => None,
        }
    }
}
