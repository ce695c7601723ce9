// Numbers as decimal text.
ghost use Rattle.std.specs.Prelude.{◌≡◌, ◌≤◌, take};
ghost use Rattle.std.specs.Fmt.{decimal};

use crate::put;

/// Writes the decimal digits of a number without leading zeros to the front of a buffer, and answers how many.
/// Behind them the buffer may hold anything.
pub fn write_dec(n: u64, out: &mut [u8; 20]) -> usize
    ensures text { take result out.new ≡ decimal n }
    ensures some { 1 ≤ result }
    ensures most { result ≤ 20 }
{
    let mut digits = [0; 20];
    let mut at: usize = 20;
    let mut rest = n;
    while rest >= 10 {
        at -= 1;
        digits[at] = b'0' + (rest % 10) as u8;
        rest /= 10;
    }
    at -= 1;
    digits[at] = b'0' + rest as u8;
    put(out, 0, &digits[at..])
}
