// The numbers of a keyword line's items, from left to right.
ghost use Rattle.std.specs.Prelude.{◌≡◌, ◌≤◌, false, length, MatchResult};
ghost use Rattle.std.specs.List.{slice_split, list_any};
ghost use Rattle.yenc_lines.specs.Keywords.{Item, item_of, items_in, is_space, same_key};
ghost use Rattle.yenc_lines.specs.Gathered.{place, gathered, nothing, taken};
ghost use Rattle.limits.specs.declared.TheConstants.{MOST_KEYWORD_BYTES};

use crate::item::{first_at, item_of, number_of};
use crate::{Key, KeyFault};

// The numbers of a line by the places of their keys.
pub(crate) type Numbers = [Option<u64>; 9];

// The place of a key's number.
pub(crate) fn place(key: Key) -> usize
    ensures value { result ≡ place key }
    ensures inside { result ≤ 8 }
{
    match key {
        Key::Part => 0,
        Key::Total => 1,
        Key::Line => 2,
        Key::Size => 3,
        Key::Name => 4,
        Key::Begin => 5,
        Key::End => 6,
        Key::Pcrc32 => 7,
        Key::Crc32 => 8,
    }
}

// Takes an item's number.
fn put(numbers: &mut Numbers, key: Key, value: &[u8]) -> Result<(), KeyFault>
    ensures { let item = taken numbers.old (Some (record { key = key; value = value.now })) in MatchResult result (λ _. item ≡ Ok numbers.new) (λ fault. item ≡ Err fault) }
{
    let at = place(key);
    if numbers[at].is_some() {
        return Err(KeyFault::Repeated(key));
    }
    let number = number_of(key, value);
    if number.is_none() {
        return Err(KeyFault::BadNumber(key));
    }
    numbers[at] = number;
    Ok(())
}

// Takes the number of a piece between spaces, where it is an item with a known key.
pub(crate) fn take(numbers: &mut Numbers, known: &[Key], piece: &[u8]) -> Result<(), KeyFault>
    ensures { MatchResult result (λ _. taken numbers.old (item_of known.now piece.now) ≡ Ok numbers.new) (λ fault. taken numbers.old (item_of known.now piece.now) ≡ Err fault) }
{
    match item_of(known, piece) {
        Some((key, value)) => put(numbers, key, value),
        None => Ok(()),
    }
}

// The numbers of all items of a text, whose keys have numbers.
pub(crate) fn read_numbers(known: &[Key], text: &[u8]) -> Result<Numbers, KeyFault>
    requires keys { list_any (same_key Key.Name) known.now ≡ false }
    requires room { length text.now ≤ MOST_KEYWORD_BYTES }
    ensures { result ≡ gathered nothing (items_in known.now (slice_split is_space text.now)) }
{
    let mut numbers = [None; 9];
    let mut at = 0;
    while at <= text.len() {
        let rest = &text[at..];
        let end = first_at(rest, b' ');
        take(&mut numbers, known, &rest[..end])?;
        at += end + 1;
    }
    Ok(numbers)
}
