// Keyword lines as they are read.
ghost use Rattle.std.specs.Prelude.{◌≡◌, ◌≤◌, ◌<◌, ◌^◌, false, length, Option, Some, None, MatchResult, IfOk, IfSome};
ghost use Rattle.std.specs.List.{list_any};
ghost use Rattle.yenc_lines.specs.declared.key.Key.{Key};
ghost use Rattle.yenc_lines.specs.Keywords.{Kind, key_fault_of, items_of, number_in, same_key, begin_of, part_of, end_of};
ghost use Rattle.yenc_lines.specs.Gathered.{begin_with, given, missing_in};
ghost use Rattle.limits.specs.declared.TheConstants.{MOST_KEYWORD_BYTES};

use crate::header::read_header;
use crate::items::{Numbers, place, read_numbers};
use crate::trim::read_name;
use crate::{Begin, EndLine, Key, KeyFault, Name, PartLine};

// The first required key without a number.
fn missing(numbers: &Numbers, required: &[Key]) -> Option<KeyFault>
    ensures { result ≡ missing_in required.now numbers.now }
{
    for key in required {
        if numbers[place(*key)].is_none() {
            return Some(KeyFault::NoItem(*key));
        }
    }
    None
}

// The numbers of a line of a kind: one that begins with this word, and knows and must have these keys.
fn read_kind(word: &[u8], known: &[Key], required: &[Key], line: &[u8]) -> Result<Numbers, KeyFault>
    requires keys { list_any (same_key Key.Name) known.now ≡ false }
    requires room { length line.now ≤ MOST_KEYWORD_BYTES }
    ensures fault { let kind : Kind = record { word = word.now; known = known.now; required = required.now } in MatchResult result (λ _. key_fault_of kind line.now ≡ None) (λ fault. key_fault_of kind line.now ≡ Some fault) }
    ensures numbers { let kind : Kind = record { word = word.now; known = known.now; required = required.now } in IfOk result (λ numbers. (k : Key) → given numbers k ≡ number_in (items_of kind line.now) k) }
{
    if !line.starts_with(word) {
        return Err(KeyFault::NotIt);
    }
    let numbers = read_numbers(known, &line[word.len()..])?;
    match missing(&numbers, required) {
        Some(fault) => Err(fault),
        None => Ok(numbers),
    }
}

/// Reads a header line, `=ybegin`, of at most 1,024 bytes (yEnc draft 1.3, "Headers and Trailers" and "Multi-part Encoded
/// Binaries"): the items `size`, up to 2^40, and where they are there `part`, from 1, `total` and `line`, in any order, and
/// then `name`, which runs to the line's end. What has no `=` or another key is passed over. The fault is that of the
/// first item that fails, and else the first of `size` and `name` that isn't there.
pub fn read_begin(line: &[u8]) -> Result<Begin, KeyFault>
    requires { length line.now ≤ MOST_KEYWORD_BYTES }
    ensures { result ≡ begin_of line.now }
{
    if !line.starts_with(b"=ybegin ") {
        return Err(KeyFault::NotIt);
    }
    let text = &line[8..];
    let (numbers, name_at) = read_header(text)?;
    match name_at {
        Some(at) => {
            let name = read_name(&text[at..])?;
            begin_with(&numbers, name)
        }
        None => Err(missing(&numbers, &[Key::Size]).unwrap_or(KeyFault::NoItem(Key::Name))),
    }
}

// What a header line with these numbers and this name says.
fn begin_with(numbers: &Numbers, name: Name) -> Result<Begin, KeyFault>
    requires part { IfSome (given numbers.now Key.Part) (λ n. n < 2 ^ 32) }
    requires total { IfSome (given numbers.now Key.Total) (λ n. n < 2 ^ 32) }
    requires line { IfSome (given numbers.now Key.Line) (λ n. n < 2 ^ 32) }
    ensures { result ≡ begin_with numbers.now name }
{
    if let Some(fault) = missing(numbers, &[Key::Size]) {
        return Err(fault);
    }
    Ok(Begin {
        part: small(numbers, Key::Part),
        total: small(numbers, Key::Total),
        line: small(numbers, Key::Line),
        size: numbers[place(Key::Size)].unwrap_or(0),
        name,
    })
}

/// Reads a part line, `=ypart`, of at most 1,024 bytes (yEnc draft 1.3, "Multi-part Encoded Binaries"): the items `begin`,
/// from 1, and `end`, each up to 2^40, in any order. What has no `=` or another key is passed over. The fault is that of
/// the first item that fails, and else the first of `begin` and `end` that isn't there.
pub fn read_part(line: &[u8]) -> Result<PartLine, KeyFault>
    requires { length line.now ≤ MOST_KEYWORD_BYTES }
    ensures { result ≡ part_of line.now }
{
    let keys = [Key::Begin, Key::End];
    let numbers = read_kind(b"=ypart ", &keys, &keys, line)?;
    Ok(PartLine {
        begin: numbers[place(Key::Begin)].unwrap_or(0),
        end: numbers[place(Key::End)].unwrap_or(0),
    })
}

/// Reads a trailer line, `=yend`, of at most 1,024 bytes (yEnc draft 1.3, "Headers and Trailers", "Verifying Integrity"
/// and "Multi-part Encoded Binaries"): the item `size` up to 2^40, and where they are there `part`, from 1, and the CRCs
/// of 1 to 8 hexadecimal digits, in any order. What has no `=` or another key is passed over. The fault is that of the
/// first item that fails, and else that there is no `size`.
pub fn read_end(line: &[u8]) -> Result<EndLine, KeyFault>
    requires { length line.now ≤ MOST_KEYWORD_BYTES }
    ensures { result ≡ end_of line.now }
{
    let known = [Key::Size, Key::Part, Key::Pcrc32, Key::Crc32];
    let numbers = read_kind(b"=yend ", &known, &[Key::Size], line)?;
    Ok(EndLine {
        size: numbers[place(Key::Size)].unwrap_or(0),
        part: small(&numbers, Key::Part),
        pcrc32: small(&numbers, Key::Pcrc32),
        crc32: small(&numbers, Key::Crc32),
    })
}

// The number of a key whose numbers have at most 32 bits.
fn small(numbers: &Numbers, key: Key) -> Option<u32>
    requires { IfSome (given numbers.now key) (λ n. n < 2 ^ 32) }
    ensures { result ≡ given numbers.now key }
{
    match numbers[place(key)] {
        Some(number) => Some(number as u32),
        None => None,
    }
}
