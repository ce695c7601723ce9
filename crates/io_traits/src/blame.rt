// What a failed call is blamed on.
ghost use Rattle.std.specs.Prelude.{◌≡◌, ◌⊎◌, Some, None};

use lists::{Bytes, Memory};
use std::alloc::Global;

/// A call on the outside, as an object tells it after it failed.
#[derive(Drop)]
pub enum Blame {
    /// The opening of a file by this name, or of a link to this address.
    Open(Bytes),
    /// A read at this place of the current file.
    Read(u64),
    /// The making of the file of this number under this name.
    Create(u32, Bytes),
    /// The taking over of the file of this number, which is there under this name.
    Keep(u32, Bytes),
    /// A write to the file of this number, at this place, of a piece of this length.
    Write(u32, u64, u64),
    /// A change of the length of the file of this number to this length.
    SetLen(u32, u64),
    /// A send on the link of this number.
    Send(u32),
    /// A receive on the link of this number.
    Receive(u32),
}

/// The blame for an opening, or nothing where there is no room for its name.
pub fn opening(alloc: Global, name: &[u8]) -> Option<Blame>
    ensures { (result ≡ Some (Blame.Open name.now)) ⊎ (result ≡ None) }
{
    let mut bytes = Bytes::new(alloc);
    match bytes.extend(name) {
        Ok(()) => Some(Blame::Open(bytes)),
        Err(Memory) => None,
    }
}
