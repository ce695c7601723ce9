// The items of a keyword line.
ghost use Rattle.std.specs.Prelude.{◌≡◌, ◌≤◌, ◌==◌, length, find, bytes_eq, MatchOption};
ghost use Rattle.std.specs.List.{position_or_len};
ghost use Rattle.numbers.specs.Numbers.{decimal_of, within};
ghost use Rattle.yenc_lines.specs.Keywords.{item_of, key_name, number_of};

use crate::Key;
use limits::MOST_FILE_BYTES;
use numbers::{read_dec, read_hex32};

// The place of the first of these bytes, or the length where there is none.
pub(crate) fn first_at(text: &[u8], byte: u8) -> usize
    ensures place { result ≡ position_or_len (λ b. b == byte) text.now }
    ensures inside { result ≤ length text.now }
{
    for (at, other) in text.iter().enumerate() {
        if *other == byte {
            return at;
        }
    }
    text.len()
}

// The known key that is written so.
fn key_of(known: &[Key], name: &[u8]) -> Option<Key>
    ensures { result ≡ find (λ k. bytes_eq (key_name k) name.now) known.now }
{
    for key in known {
        if key.as_bytes() == name {
            return Some(*key);
        }
    }
    None
}

// A piece between spaces as a known key and the value's text.
pub(crate) fn item_of<'a>(known: &[Key], piece: &'a [u8]) -> Option<(Key, &'a [u8])>
    ensures { MatchOption result (item_of known.now piece.now ≡ None) (λ item. item_of known.now piece.now ≡ Some (record { key = item.0; value = item.1.now })) }
{
    let at = first_at(piece, b'=');
    if at == piece.len() {
        return None;
    }
    let key = key_of(known, &piece[..at])?;
    Some((key, &piece[at + 1..]))
}

// The number that a value is, where the key has one in its range.
pub(crate) fn number_of(key: Key, value: &[u8]) -> Option<u64>
    ensures { result ≡ number_of key value.now }
{
    match key {
        Key::Part => read_from_1(value, u64::from(u32::MAX)),
        Key::Total | Key::Line => read_dec(value, u64::from(u32::MAX)),
        Key::Size | Key::End => read_dec(value, MOST_FILE_BYTES),
        Key::Begin => read_from_1(value, MOST_FILE_BYTES),
        Key::Pcrc32 | Key::Crc32 => read_hex32(value).map(u64::from),
        Key::Name => None,
    }
}

fn read_from_1(value: &[u8], max: u64) -> Option<u64>
    ensures { result ≡ within 1 max (decimal_of value.now) }
{
    match read_dec(value, max) {
        Some(0) | None => None,
        Some(number) => Some(number),
    }
}
