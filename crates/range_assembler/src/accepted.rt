// The accepted ranges of a file, in order.
ghost use Rattle.std.specs.Prelude.{◌≡◌, ◌<◌, ◌^◌, length, drop};
ghost use Rattle.range_assembler.specs.Accepted.{is_accepted_at, kth_from};
ghost use Rattle.range_assembler.specs.Entries.{is_accepted};

use crate::order::Order;
use crate::{Entry, Hold};

/// The segment with the k-th accepted range from a place on, up to the first range of another file.
pub fn kth_from(order: &Order, entries: &[Entry], file: u32, place: u32, k: usize) -> Option<u32>
    requires few { length order.now.0 < 2 ^ 32 }
    ensures { result ≡ kth_from file entries.now (drop place order.now.0) k }
{
    let mut left = k;
    for at in place..order.len() {
        let range = match order.get(at) {
            Some(range) => range,
            None => return None,
        };
        if range.file != file {
            return None;
        }
        if is_accepted_at(entries, range.segment) {
            if left == 0 {
                return Some(range.segment);
            }
            left -= 1;
        }
    }
    None
}

fn is_accepted_at(entries: &[Entry], segment: u32) -> bool
    ensures { result ≡ is_accepted_at entries.now segment }
{
    match entries.get(segment as usize) {
        Some(entry) => is_accepted(entry.hold),
        None => false,
    }
}

fn is_accepted(hold: Hold) -> bool
    ensures { result ≡ is_accepted hold }
{
    match hold {
        Hold::Free => false,
        Hold::Held => false,
        Hold::Accepted(_) => true,
    }
}
