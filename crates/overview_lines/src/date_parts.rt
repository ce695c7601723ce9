// The parts of a date.
ghost use Rattle.std.specs.Prelude.{◌≡◌, ◌≤◌, ◌+◌, IfSome, MatchOption, Some, None};
ghost use Rattle.overview_lines.specs.DateParts.{clock_of, day_of, month_of, time_of, two_digits, year_of, zone_of};

use numbers::read_dec;

// How many seconds a zone is ahead of UTC, and how many behind it; one of them is 0.
#[derive(Clone, Copy)]
pub(crate) struct Zone {
    pub(crate) ahead: u64,
    pub(crate) behind: u64,
}

// A day of a month.
#[tactic(auto, unfolding(crate::specs::DateParts::day_of))]
pub(crate) fn day_of(word: &[u8]) -> Option<u64>
    ensures reading { result ≡ day_of word.now }
    ensures most { IfSome result (λ day. day ≤ 31) }
{
    if word.len() > 2 {
        return None;
    }
    read_dec(word, 31)
}

// A month by its name.
#[tactic(auto, unfolding(crate::specs::DateParts::month_of))]
pub(crate) fn month_of(word: &[u8]) -> Option<u64>
    ensures reading { result ≡ month_of word.now }
    ensures least { IfSome result (λ month. 1 ≤ month) }
    ensures most { IfSome result (λ month. month ≤ 12) }
{
    match word {
        b"Jan" => Some(1),
        b"Feb" => Some(2),
        b"Mar" => Some(3),
        b"Apr" => Some(4),
        b"May" => Some(5),
        b"Jun" => Some(6),
        b"Jul" => Some(7),
        b"Aug" => Some(8),
        b"Sep" => Some(9),
        b"Oct" => Some(10),
        b"Nov" => Some(11),
        b"Dec" => Some(12),
        _ => None,
    }
}

// A year of four digits from 1970 on.
#[tactic(auto, unfolding(crate::specs::DateParts::year_of))]
pub(crate) fn year_of(word: &[u8]) -> Option<u64>
    ensures reading { result ≡ year_of word.now }
    ensures least { IfSome result (λ year. 1970 ≤ year) }
    ensures most { IfSome result (λ year. year ≤ 9999) }
{
    if word.len() != 4 {
        return None;
    }
    match read_dec(word, 9_999) {
        Some(year) if year >= 1970 => Some(year),
        _ => None,
    }
}

// The seconds of a time of day.
#[tactic(auto, unfolding(crate::specs::DateParts::time_of))]
pub(crate) fn time_of(word: &[u8]) -> Option<u64>
    ensures reading { result ≡ time_of word.now }
    ensures most { IfSome result (λ seconds. seconds ≤ 86400) }
{
    if word.len() < 5 || word[2] != b':' {
        return None;
    }
    let minutes = clock_of(&word[..2], &word[3..5])?;
    if word.len() == 5 {
        return Some(minutes);
    }
    if word[5] != b':' {
        return None;
    }
    let second = two_digits(&word[6..], 60)?;
    Some(minutes + second)
}

// A zone by its offset, or by a name of UTC.
#[tactic(auto, unfolding(crate::specs::DateParts::zone_of))]
pub(crate) fn zone_of(word: &[u8]) -> Option<Zone>
    ensures reading { MatchOption result (zone_of word.now ≡ None) (λ zone. zone_of word.now ≡ Some (record { ahead = zone.ahead; behind = zone.behind })) }
    ensures ahead { IfSome result (λ zone. zone.ahead ≤ 86340) }
    ensures behind { IfSome result (λ zone. zone.behind ≤ 86340) }
{
    if matches!(word, b"GMT" | b"UT" | b"UTC") {
        return Some(Zone {
            ahead: 0,
            behind: 0,
        });
    }
    if word.len() != 5 {
        return None;
    }
    let seconds = clock_of(&word[1..3], &word[3..])?;
    match word[0] {
        b'+' => Some(Zone {
            ahead: seconds,
            behind: 0,
        }),
        b'-' => Some(Zone {
            ahead: 0,
            behind: seconds,
        }),
        _ => None,
    }
}

// The seconds of an hour and a minute.
#[tactic(auto, unfolding(crate::specs::DateParts::clock_of))]
fn clock_of(hour: &[u8], minute: &[u8]) -> Option<u64>
    ensures reading { result ≡ clock_of hour.now minute.now }
    ensures most { IfSome result (λ seconds. seconds ≤ 86340) }
{
    let hour = two_digits(hour, 23)?;
    let minute = two_digits(minute, 59)?;
    Some(hour * 3_600 + minute * 60)
}

// A number of two digits, up to `most`.
#[tactic(auto, unfolding(crate::specs::DateParts::two_digits))]
fn two_digits(word: &[u8], most: u64) -> Option<u64>
    ensures reading { result ≡ two_digits most word.now }
    ensures most { IfSome result (λ value. value ≤ most) }
{
    if word.len() != 2 {
        return None;
    }
    read_dec(word, most)
}
