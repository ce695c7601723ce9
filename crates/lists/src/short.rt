// Short texts that take no memory.
ghost use Rattle.std.specs.Prelude.{◌≡◌, ◌≤◌, ◌↔◌, length, take, IsSome, IfSome};

use std::marker::Model;

/// At most `N` bytes, in an array of its own. Contracts see the list of bytes.
#[derive(Clone, Debug, Drop)]
pub struct Short<const N: usize> {
    bytes: [u8; N],
    len: usize,
}

impl<const N: usize> Model for Short<N> {
    ghost use Rattle.std.specs.Prelude.{ℕ, List, ◌≤◌, take};

    ghost Value = { List ℕ };

    ghost view = { λ s. take s.len s.bytes };

    ghost invariant = { λ s. s.len ≤ N };
}

impl<const N: usize> Short<N> {
    /// These bytes, or `None` where there are too many.
    pub fn new(text: &[u8]) -> Option<Self>
        ensures rule { IsSome result ↔ (length text.now ≤ N) }
        ensures same { IfSome result (λ short. short ≡ text.now) }
    {
        if text.len() > N {
            return None;
        }
        let mut bytes = [0; N];
        put_front(&mut bytes, text);
        Some(Short {
            bytes,
            len: text.len(),
        })
    }

    /// All bytes, in order.
    pub fn as_slice(&self) -> &[u8]
        ensures { result.now ≡ self.now }
    {
        let all = &self.bytes[..];
        &all[..self.len]
    }
}

// Puts a text to the front of a buffer.
fn put_front(out: &mut [u8], text: &[u8])
    requires { length text.now ≤ length out.old }
    ensures { take (length text.now) out.new ≡ text.now }
{
    out[..text.len()].copy_from_slice(text);
}
