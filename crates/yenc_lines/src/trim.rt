// Names without the spaces round them.
ghost use Rattle.std.specs.Prelude.{◌≡◌, ◌≢◌, ◌≤◌, ◌<◌, ◌-◌, length, slice_index, IsTrue, Some, None, MatchResult, IfOk};
ghost use Rattle.std.specs.List.{prefix_len, suffix_len};
ghost use Rattle.yenc_lines.specs.Keywords.{is_space, trimmed, value_fault};
ghost use Rattle.yenc_lines.specs.Name.{is_trimmed};

use crate::{Key, KeyFault, Name};

// A name's text as a name: without the spaces at both ends.
pub(crate) fn read_name(text: &[u8]) -> Result<Name, KeyFault>
    ensures fault { MatchResult result (λ _. value_fault Key.Name (trimmed text.now) ≡ None) (λ fault. value_fault Key.Name (trimmed text.now) ≡ Some fault) }
    ensures name { IfOk result (λ name. name ≡ trimmed text.now) }
{
    match Name::new(trimmed(text)) {
        Some(name) => Ok(name),
        None => Err(KeyFault::BadName),
    }
}

// Without the spaces at both ends.
fn trimmed(text: &[u8]) -> &[u8]
    ensures value { result.now ≡ trimmed text.now }
    ensures ends { 1 ≤ length result.now → IsTrue (is_trimmed result.now) }
{
    let before = spaces_before(text);
    let front = &text[before..];
    let behind = spaces_behind(front);
    &front[..front.len() - behind]
}

fn spaces_before(text: &[u8]) -> usize
    ensures value { result ≡ prefix_len is_space text.now }
    ensures inside { result ≤ length text.now }
    ensures next { result < length text.now → slice_index text.now result ≢ 32 }
{
    for (at, byte) in text.iter().enumerate() {
        if *byte != b' ' {
            return at;
        }
    }
    text.len()
}

fn spaces_behind(text: &[u8]) -> usize
    ensures value { result ≡ suffix_len is_space text.now }
    ensures inside { result ≤ length text.now }
    ensures next { result < length text.now → slice_index text.now (length text.now - 1 - result) ≢ 32 }
{
    let mut count = 0;
    while count < text.len() {
        if text[text.len() - 1 - count] != b' ' {
            return count;
        }
        count += 1;
    }
    count
}
