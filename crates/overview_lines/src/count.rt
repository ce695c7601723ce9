// The count in a subject.
ghost use Rattle.std.specs.Prelude.{◌≡◌, ◌<◌, ◌≤◌, drop, length, IfNone, IfSome, MatchOption, Some, None};
ghost use Rattle.overview_lines.specs.Count.{IsCount, IsLastCount, count_at, count_of, digits_len, number_before, number_of};

use numbers::read_dec;

// The greatest number in a count.
const MOST: u64 = 9_999_999;

// The greatest number of its digits.
const MOST_DIGITS: usize = 7;

/// The count in a subject, as `(1/5)`: which part of how many an article is (yEnc draft 1.3, "Subject Line Conventions").
#[derive(Clone, Copy, Debug, PartialEq, Eq)]
pub struct Count {
    /// The place of its `(`, from 0.
    pub start: usize,
    /// The place behind its `)`.
    pub end: usize,
    /// The number of the part, from 1 to 9,999,999.
    pub part: u32,
    /// How many parts there are, up to 9,999,999. It may be less than the number of the part.
    pub total: u32,
}

/// The count in a subject that starts last: `(`, the number of a part, from 1, `/`, how many parts there are, and `)`
/// (yEnc draft 1.3, "Subject Line Conventions"). Both numbers are 1 to 7 decimal digits, where leading zeros may stand.
pub fn count_of(subject: &[u8]) -> Option<Count>
    ensures reading { result ≡ count_of subject.now }
    ensures last { IfSome result (IsLastCount subject.now) }
    ensures none { IfNone result ((count : Count) → ¬ IsCount subject.now count) }
    ensures order { IfSome result (λ count. count.start < count.end) }
    ensures within { IfSome result (λ count. count.end ≤ length subject.now) }
    ensures some { IfSome result (λ count. 1 ≤ count.part) }
    ensures few { IfSome result (λ count. count.part ≤ 9999999) }
    ensures total { IfSome result (λ count. count.total ≤ 9999999) }
{
    last_count(subject)
}

#[tactic(auto, using(crate::proofs::LastCount::last_here, crate::proofs::LastCount::found_is_last), unfolding(crate::specs::Count::last_count, crate::specs::Count::count_of))]
fn last_count(subject: &[u8]) -> Option<Count>
    ensures { result ≡ count_of subject.now }
{
    for start in (0..subject.len()).rev() {
        if let Some(count) = count_at(subject, start) {
            return Some(count);
        }
    }
    None
}

// The count that starts at a place.
#[tactic(auto, unfolding(crate::specs::Count::count_at))]
fn count_at(subject: &[u8], start: usize) -> Option<Count>
    requires { start < length subject.now }
    ensures { result ≡ count_at start (drop start subject.now) }
{
    if subject[start] != b'(' {
        return None;
    }
    let (part, rest) = number_before(&subject[start + 1..], b'/')?;
    let (total, rest) = number_before(rest, b')')?;
    if part == 0 {
        return None;
    }
    Some(Count {
        start,
        end: subject.len() - rest.len(),
        part,
        total,
    })
}

// The number that a text begins with, where this byte stands behind it, and what stands behind the byte.
#[tactic(auto, unfolding(crate::specs::Count::number_before))]
fn number_before(text: &[u8], byte: u8) -> Option<(u32, &[u8])>
    ensures shorter { IfSome result (λ found. length found.1.now < length text.now) }
    ensures reading { MatchOption result (number_before byte text.now ≡ None) (λ found. number_before byte text.now ≡ Some (record { number = found.0; behind = found.1.now })) }
{
    let len = digits_len(text);
    if len >= text.len() || text[len] != byte {
        return None;
    }
    match number_of(&text[..len]) {
        Some(number) => Some((number, &text[len + 1..])),
        None => None,
    }
}

// How many digits a text begins with.
fn digits_len(text: &[u8]) -> usize
    ensures value { result ≡ digits_len text.now }
    ensures inside { result ≤ length text.now }
{
    text.iter().take_while(|byte| byte.is_ascii_digit()).count()
}

#[tactic(auto, using(crate::proofs::Digits::seven_digits))]
fn number_of(digits: &[u8]) -> Option<u32>
    ensures { result ≡ number_of digits.now }
{
    if digits.len() > MOST_DIGITS {
        return None;
    }
    match read_dec(digits, MOST) {
        Some(number) => Some(number as u32),
        None => None,
    }
}
