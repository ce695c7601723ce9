// Text behind the first bytes of a buffer.
ghost use Rattle.std.specs.Prelude.{◌≡◌, ◌≤◌, ◌+◌, ◌++◌, length, take};
ghost use Rattle.std.specs.Fmt.{decimal};

use crate::write_dec;

/// Puts a text behind the first `at` bytes of a buffer, and answers where it ends. Behind it the buffer may hold anything.
pub fn put(out: &mut [u8], at: usize, text: &[u8]) -> usize
    requires { at + length text.now ≤ length out.old }
    ensures text { take result out.new ≡ take at out.old ++ text.now }
    ensures end { result ≡ at + length text.now }
{
    let end = at + text.len();
    out[at..end].copy_from_slice(text);
    end
}

/// Puts the decimal digits of a number behind the first `at` bytes of a buffer, without leading zeros, and answers where
/// they end.
pub fn put_number(out: &mut [u8], at: usize, number: u64) -> usize
    requires { at + 20 ≤ length out.old }
    ensures text { take result out.new ≡ take at out.old ++ decimal number }
    ensures end { result ≤ at + 20 }
{
    let mut digits = [0; 20];
    let len = write_dec(number, &mut digits);
    put(out, at, &digits[..len])
}
