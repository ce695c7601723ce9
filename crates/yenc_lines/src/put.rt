// Items behind the first bytes of a line.
ghost use Rattle.std.specs.Prelude.{◌≡◌, ◌≤◌, ◌+◌, ◌++◌, length, take, codes, decimal};
ghost use Rattle.crc_field.specs.Hex.{hex_digits};
ghost use Rattle.yenc_lines.specs.KeywordText.{item};
ghost use Rattle.limits.specs.declared.TheConstants.{MOST_KEYWORD_BYTES};

use crc_field::write_hex;
use limits::MOST_KEYWORD_BYTES;
use numbers::{put, write_dec};

// Puts an item whose value has this text.
fn put_item(out: &mut [u8; MOST_KEYWORD_BYTES], at: usize, key: &[u8], value: &[u8]) -> usize
    requires { at + length key.now + length value.now + 2 ≤ MOST_KEYWORD_BYTES }
    ensures text { take result out.new ≡ take at out.old ++ (codes " " ++ key.now ++ codes "=" ++ value.now) }
    ensures end { result ≡ at + length key.now + length value.now + 2 }
{
    let at = put(out, at, b" ");
    let at = put(out, at, key);
    let at = put(out, at, b"=");
    put(out, at, value)
}

// Puts an item whose value is a decimal number.
pub(crate) fn put_decimal(
    out: &mut [u8; MOST_KEYWORD_BYTES],
    at: usize,
    key: &[u8],
    value: u64,
) -> usize
    requires { at + length key.now + 22 ≤ MOST_KEYWORD_BYTES }
    ensures text { take result out.new ≡ take at out.old ++ item key.now decimal (Some value) }
    ensures end { result ≤ at + length key.now + 22 }
{
    let mut digits = [0; 20];
    let len = write_dec(value, &mut digits);
    put_item(out, at, key, &digits[..len])
}

// Puts an item whose value is a decimal number, where it is there.
pub(crate) fn put_number(
    out: &mut [u8; MOST_KEYWORD_BYTES],
    at: usize,
    key: &[u8],
    value: Option<u32>,
) -> usize
    requires { at + length key.now + 22 ≤ MOST_KEYWORD_BYTES }
    ensures text { take result out.new ≡ take at out.old ++ item key.now decimal value }
    ensures end { result ≤ at + length key.now + 22 }
{
    match value {
        Some(n) => put_decimal(out, at, key, u64::from(n)),
        None => at,
    }
}

// Puts an item whose value is a CRC, where it is there.
pub(crate) fn put_crc(
    out: &mut [u8; MOST_KEYWORD_BYTES],
    at: usize,
    key: &[u8],
    value: Option<u32>,
) -> usize
    requires { at + length key.now + 10 ≤ MOST_KEYWORD_BYTES }
    ensures text { take result out.new ≡ take at out.old ++ item key.now (hex_digits 8) value }
    ensures end { result ≤ at + length key.now + 10 }
{
    match value {
        Some(crc) => put_item(out, at, key, &write_hex(crc)),
        None => at,
    }
}
