// Counts that never fall, and what a failed opening is blamed on.
ghost use Rattle.std.specs.Prelude.{◌≡◌, ◌≤◌, ◌⊎◌, Some, None};
ghost use Rattle.io_traits.specs.Causes.{Rose, next_count};

use io_traits::Blame;
use lists::{Bytes, Memory};
use std::alloc::Global;

// One more, up to the greatest number.
pub(crate) fn raised(count: u64) -> u64
    ensures value { result ≡ next_count count }
    ensures later { count ≤ result }
    ensures rose { Rose count result }
{
    count.saturating_add(1)
}

// The blame for an opening, or nothing where there is no room for its address.
pub(crate) fn opening(alloc: Global, address: &[u8]) -> Option<Blame>
    ensures { (result ≡ Some (Blame.Open address.now)) ⊎ (result ≡ None) }
{
    let mut bytes = Bytes::new(alloc);
    match bytes.extend(address) {
        Ok(()) => Some(Blame::Open(bytes)),
        Err(Memory) => None,
    }
}
