// The date of an article.
ghost use Rattle.std.specs.Prelude.{◌≡◌, ◌≤◌, ℕ, length, MatchOption, IfSome};
ghost use Rattle.std.specs.Char.{is_ascii_alphabetic};
ghost use Rattle.std.specs.List.{list_all, position_or_len, prefix_len};
ghost use Rattle.overview_lines.specs.Date.{IsDate, behind_word, date_of, day_in, first_word, is_space, is_weekday, seconds_of, words_from, words_in, words_of};
ghost use Rattle.limits.specs.declared.TheConstants.{LAST_MOMENT};

use crate::date_parts::{day_of, month_of, time_of, year_of, zone_of};
use jiff::civil::Date;

// The words that say a date. A missing one is empty.
#[derive(Clone, Copy)]
struct DateWords<'a> {
    day: &'a [u8],
    month: &'a [u8],
    year: &'a [u8],
    time: &'a [u8],
    zone: &'a [u8],
}

/// Reads the date that a text begins with, as an overview gives it (RFC 5322, 3.3), in seconds of Unix time: a day of the week
/// and a comma or neither, a day of a month, a month, a year of four digits from 1970, a time, and a zone, with one or more
/// spaces between two. What follows behind another space isn't read, nor is the day of the week compared with the date. `None`
/// for any other text, and for a moment before 1970.
#[tactic(auto, unfolding(crate::specs::Date::date_of))]
pub fn read_date(text: &[u8]) -> Option<u64>
    ensures reading { result ≡ date_of text.now }
    ensures date { MatchOption result ((seconds : ℕ) → ¬ IsDate text.now seconds) (IsDate text.now) }
    ensures late { IfSome result (λ seconds. seconds ≤ LAST_MOMENT) }
{
    seconds_of(words_of(text))
}

// The seconds of Unix time that words say.
#[tactic(auto, unfolding(crate::specs::Date::seconds_of))]
fn seconds_of(words: DateWords<'_>) -> Option<u64>
    ensures reading { result ≡ seconds_of (words_in words.entry) }
    ensures late { IfSome result (λ seconds. seconds ≤ LAST_MOMENT) }
{
    let year = year_of(words.year)?;
    let day = day_of(words.day)?;
    let month = month_of(words.month)?;
    let day = day_in(year, month, day)?;
    let time = time_of(words.time)?;
    let zone = zone_of(words.zone)?;
    (day * 86_400 + time + zone.behind).checked_sub(zone.ahead)
}

// The number of a day, 0 for 1 January 1970, where the calendar has it.
fn day_in(year: u64, month: u64, day: u64) -> Option<u64>
    requires year_least { 1970 ≤ year }
    requires year_most { year ≤ 9999 }
    requires month_least { 1 ≤ month }
    requires month_most { month ≤ 12 }
    requires day_most { day ≤ 31 }
    ensures reading { result ≡ day_in year month day }
    ensures most { IfSome result (λ day. day ≤ 2932896) }
{
    match Date::new(year as i16, month as i8, day as i8) {
        Ok(date) => Some(date.to_plain().to_unix_epoch_day() as u64),
        Err(_) => None,
    }
}

// The words of a date, behind the day of the week where there is one.
#[tactic(auto, unfolding(crate::specs::Date::words_of))]
fn words_of(text: &[u8]) -> DateWords<'_>
    ensures { words_in result ≡ words_of text.now }
{
    let (first, rest) = cut_word(text);
    if is_weekday(first) {
        words_from(rest)
    } else {
        words_from(text)
    }
}

#[tactic(auto, unfolding(crate::specs::Date::words_from))]
fn words_from(text: &[u8]) -> DateWords<'_>
    ensures { words_in result ≡ words_from text.now }
{
    let (day, rest) = cut_word(text);
    let (month, rest) = cut_word(rest);
    let (year, rest) = cut_word(rest);
    let (time, rest) = cut_word(rest);
    let (zone, _) = cut_word(rest);
    DateWords {
        day,
        month,
        year,
        time,
        zone,
    }
}

// What stands before the first space, and what stands behind the spaces there.
fn cut_word(text: &[u8]) -> (&[u8], &[u8])
    ensures word { result.0.now ≡ first_word text.now }
    ensures behind { result.1.now ≡ behind_word text.now }
{
    let (word, rest) = text.split_at(word_len(text));
    (word, &rest[spaces_len(rest)..])
}

// How many bytes stand before the first space.
fn word_len(text: &[u8]) -> usize
    ensures value { result ≡ position_or_len is_space text.now }
    ensures inside { result ≤ length text.now }
{
    text.iter().take_while(|byte| **byte != b' ').count()
}

// How many spaces a text begins with.
fn spaces_len(text: &[u8]) -> usize
    ensures value { result ≡ prefix_len is_space text.now }
    ensures inside { result ≤ length text.now }
{
    text.iter().take_while(|byte| **byte == b' ').count()
}

// Three letters and a comma.
fn is_weekday(word: &[u8]) -> bool
    ensures { result ≡ is_weekday word.now }
{
    word.len() == 4 && are_letters(&word[..3]) && word[3] == b','
}

fn are_letters(text: &[u8]) -> bool
    ensures { result ≡ list_all is_ascii_alphabetic text.now }
{
    text.iter().all(|byte| byte.is_ascii_alphabetic())
}
