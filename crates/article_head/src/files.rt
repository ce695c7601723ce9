// The names under which the files of an index are written.
ghost use Rattle.std.specs.Prelude.{◌≡◌, ◌≤◌, ◌<◌, ◌+◌, ◌++◌, length, map, take, codes};
ghost use Rattle.article_head.specs.OutName.{IsFilename, IsOutName, digit, four_digits, is_portable, name_or_file, out_name, portable};
ghost use Rattle.article_head.specs.QuotedName.{quoted_name};
ghost use Rattle.limits.specs.declared.TheConstants.{MOST_FILES};

use crate::quoted::quoted_name;
use lists::Short;
use numbers::put;
use std::marker::Model;

// The greatest length in bytes: four digits, a dash, and what is kept of the name.
const MOST: usize = 205;

const MOST_OF_NAME: usize = 200;

/// The name under which a file of an index is written, in the current folder: 6 to 205 letters, digits, `-`, `.` and `_`
/// (the portable filename character set of POSIX), the first of which is a digit. Contracts see the list of bytes.
#[derive(Clone, Debug, Drop)]
pub struct OutName {
    text: Short<MOST>,
}

impl Model for OutName {
    ghost use Rattle.std.specs.Prelude.{ℕ, List};
    ghost use Rattle.article_head.specs.OutName.{IsOutName};

    ghost Value = { List ℕ };

    ghost view = { λ name. name.text };

    ghost invariant = { λ name. IsOutName name.text };
}

impl OutName {
    /// The name as text. It names a file of the current folder, and no other place.
    pub fn as_str(&self) -> &str
        ensures text { result.now ≡ self.now }
        ensures rule { IsOutName self.now }
        ensures filename { IsFilename self.now }
    {
        match str::from_utf8(self.text.as_slice()) {
            Ok(text) => text,
            Err(_) => unreachable!(),
        }
    }
}

/// The name under which a file of an index is written: its number, from 1, in four digits, `-`, and the first 200 bytes of
/// the name in its subject, or `file` where the subject gives none. `_` stands for each byte that isn't a letter, a digit,
/// `-`, `.` or `_`. The files are counted from 0, and an index has at most `MOST_FILES`.
#[tactic(auto, using(crate::proofs::OutNameLaws::kept_short))]
pub fn out_name(file: u32, subject: &[u8]) -> OutName
    requires { file < MOST_FILES }
    ensures { result ≡ out_name file subject.now }
{
    let mut text = [0; MOST];
    let len = put_out_name(&mut text, file + 1, kept_name(subject));
    match Short::new(&text[..len]) {
        Some(text) => OutName { text },
        None => unreachable!(),
    }
}

// What is kept of the name in a subject.
fn kept_name(subject: &[u8]) -> &[u8]
    ensures { result.now ≡ take 200 (name_or_file (quoted_name subject.now)) }
{
    front_of(name_or_file(subject), MOST_OF_NAME)
}

// At most so many bytes of a text, from its front.
fn front_of(text: &[u8], most: usize) -> &[u8]
    ensures { result.now ≡ take most text.now }
{
    if text.len() <= most {
        return text;
    }
    &text[..most]
}

fn name_or_file(subject: &[u8]) -> &[u8]
    ensures { result.now ≡ name_or_file (quoted_name subject.now) }
{
    match quoted_name(subject) {
        Some(name) if !name.is_empty() => name,
        _ => b"file",
    }
}

// Puts the name of the file of a number, from 1, and answers its length.
fn put_out_name(text: &mut [u8; MOST], number: u32, name: &[u8]) -> usize
    requires number { number ≤ 9999 }
    requires short { length name.now ≤ 200 }
    ensures text { take result text.new ≡ four_digits number ++ codes "-" ++ map portable name.now }
    ensures end { result ≡ 5 + length name.now }
{
    let at = put(text, 0, &four_digits(number));
    let at = put(text, at, b"-");
    put_portable(text, at, name)
}

fn four_digits(number: u32) -> [u8; 4]
    ensures { result ≡ four_digits number }
{
    [
        digit(number / 1000),
        digit(number / 100),
        digit(number / 10),
        digit(number),
    ]
}

// The last decimal digit of a number.
fn digit(number: u32) -> u8
    ensures { result ≡ digit number }
{
    b'0' + (number % 10) as u8
}

// Puts a name, with `_` in place of the bytes that aren't portable, and answers where it ends.
fn put_portable(text: &mut [u8; MOST], at: usize, name: &[u8]) -> usize
    requires { at + length name.now ≤ 205 }
    ensures text { take result text.new ≡ take at text.old ++ map portable name.now }
    ensures end { result ≡ at + length name.now }
{
    let mut end = at;
    for byte in name {
        text[end] = portable(*byte);
        end += 1;
    }
    end
}

fn portable(byte: u8) -> u8
    ensures { result ≡ portable byte }
{
    if is_portable(byte) { byte } else { b'_' }
}

fn is_portable(byte: u8) -> bool
    ensures { result ≡ is_portable byte }
{
    byte.is_ascii_alphanumeric() || matches!(byte, b'-' | b'.' | b'_')
}
