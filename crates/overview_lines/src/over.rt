// A line of an overview.
ghost use Rattle.std.specs.Prelude.{◌≡◌, ◌≢◌, ◌<◌, length, position, IfSome, [], ◌∷◌, ◌++◌, List, ℕ, MatchOption, MatchResult, Some, None, Ok, Err, IfOk, IfErr};
ghost use Rattle.std.specs.List.{slice_split};
ghost use Rattle.overview_lines.specs.OverLine.{HasOverFault, IsIdField, IsReadLine, IsOverLine, bytes_of, is_plain, is_tab, number_of, over_in};
ghost use Rattle.overview_lines.specs.OverReading.{fields_in, fields_of, id_of, over_of, over_said};

use limits::{MOST_ARTICLE, MOST_OCTETS};
use nntp_lines::MessageId;
use numbers::read_dec;

// The greatest length of a line in bytes, without CRLF.
const MOST: usize = 4096;

/// What a line of an overview says of an article (RFC 3977, 8.3.2).
#[derive(Debug, Drop)]
pub struct OverLine<'a> {
    /// The number of the article, from 1 to `MOST_ARTICLE`.
    pub number: u64,
    /// The subject, without a byte below 32.
    pub subject: &'a [u8],
    /// Who posted it, without a byte below 32.
    pub from: &'a [u8],
    /// The text of the date, without a byte below 32.
    pub date: &'a [u8],
    /// The message-id.
    pub id: MessageId,
    /// How many bytes it has, up to `MOST_OCTETS`; 0 where the line doesn't say.
    pub bytes: u64,
}

/// Why a line is none of an overview. A line has the first of these that holds of it.
#[derive(Clone, Copy, Debug, PartialEq, Eq)]
pub enum OverFault {
    /// It has more than 4,096 bytes without its CRLF.
    TooLong,
    /// It has fewer than eight fields.
    TooFewFields,
    /// This field, counted from 1, isn't a number in its range: the article's number, which is looked at first, or how many
    /// bytes it has, which is looked at last.
    BadNumber(u32),
    /// This field, counted from 1, holds a byte below 32: the subject, who posted it, or the date.
    BadText(u32),
    /// The fifth field isn't a message-id in angle brackets.
    BadId,
}

// Those of a line's first eight fields that are read.
#[derive(Clone, Copy)]
struct LineFields<'a> {
    number: &'a [u8],
    subject: &'a [u8],
    from: &'a [u8],
    date: &'a [u8],
    id: &'a [u8],
    bytes: &'a [u8],
}

/// Reads a line of an overview without its CRLF: eight fields or more with a TAB between two, which are the article's number,
/// its subject, who posted it, the date, its message-id, its references, how many bytes and how many lines it has (RFC 3977,
/// 8.3.2 and 8.4). References, lines and further fields aren't read. Numbers may have leading zeros.
pub fn read_over(line: &[u8]) -> Result<OverLine<'_>, OverFault>
    ensures reading { MatchResult result (λ over. over_of line.now ≡ Ok (over_in over)) (λ fault. over_of line.now ≡ Err fault) }
    ensures line { IfOk result (λ over. IsOverLine line.now (over_in over)) }
    ensures over { IfOk result (λ over. IsReadLine (over_in over)) }
    ensures fault { IfErr result (HasOverFault line.now) }
{
    if line.len() > MOST {
        return Err(OverFault::TooLong);
    }
    match fields_of(line) {
        Some(fields) => over_said(fields),
        None => Err(OverFault::TooFewFields),
    }
}

// The fields of a line, if there are eight or more.
#[tactic(auto, using(crate::proofs::OverFields::eight_fields), unfolding(crate::specs::OverReading::fields_of))]
fn fields_of(line: &[u8]) -> Option<LineFields<'_>>
    ensures { MatchOption result (fields_of line.now ≡ None) (λ f. fields_of line.now ≡ Some (fields_in f)) }
{
    let (number, rest) = cut(line)?;
    let (subject, rest) = cut(rest)?;
    let (from, rest) = cut(rest)?;
    let (date, rest) = cut(rest)?;
    let (id, rest) = cut(rest)?;
    let (_, rest) = cut(rest)?;
    let (bytes, _) = cut(rest)?;
    Some(LineFields {
        number,
        subject,
        from,
        date,
        id,
        bytes,
    })
}

// The first field of a text, and what stands behind its TAB. `None` where there is no TAB.
#[tactic(auto, using(crate::proofs::OverFields::cut_at_tab, crate::proofs::OverFields::not_cut))]
fn cut(text: &[u8]) -> Option<(&[u8], &[u8])>
    ensures { MatchOption result (slice_split is_tab text.now ≡ text.now ∷ []) (λ cut. slice_split is_tab text.now ≡ cut.0.now ∷ slice_split is_tab cut.1.now) }
{
    match first_tab(text) {
        Some(end) => Some((&text[..end], &text[end + 1..])),
        None => None,
    }
}

// The place of the first TAB.
fn first_tab(text: &[u8]) -> Option<usize>
    ensures place { result ≡ position is_tab text.now }
    ensures inside { IfSome result (λ at. at < length text.now) }
{
    text.iter().position(|byte| *byte == b'\t')
}

// What fields say of an article.
#[tactic(auto, unfolding(crate::specs::OverReading::over_said))]
fn over_said(fields: LineFields<'_>) -> Result<OverLine<'_>, OverFault>
    ensures { MatchResult result (λ over. over_said (fields_in fields.entry) ≡ Ok (over_in over)) (λ fault. over_said (fields_in fields.entry) ≡ Err fault) }
{
    let Some(number) = number_of(fields.number) else {
        return Err(OverFault::BadNumber(1));
    };
    if !is_plain(fields.subject) {
        return Err(OverFault::BadText(2));
    }
    if !is_plain(fields.from) {
        return Err(OverFault::BadText(3));
    }
    if !is_plain(fields.date) {
        return Err(OverFault::BadText(4));
    }
    let Some(id) = id_of(fields.id) else {
        return Err(OverFault::BadId);
    };
    let Some(bytes) = bytes_of(fields.bytes) else {
        return Err(OverFault::BadNumber(7));
    };
    Ok(OverLine {
        number,
        subject: fields.subject,
        from: fields.from,
        date: fields.date,
        id,
        bytes,
    })
}

fn number_of(field: &[u8]) -> Option<u64>
    ensures { result ≡ number_of field.now }
{
    match read_dec(field, MOST_ARTICLE) {
        Some(number) if number >= 1 => Some(number),
        _ => None,
    }
}

// Whether no byte is below 32.
fn is_plain(text: &[u8]) -> bool
    ensures { result ≡ is_plain text.now }
{
    text.iter().all(|byte| *byte >= 32)
}

// The message-id in its angle brackets.
fn id_of(field: &[u8]) -> Option<MessageId>
    ensures is { MatchOption result ((id : List ℕ) → ¬ IsIdField field.now id) (IsIdField field.now) }
    ensures reading { result ≡ id_of field.now }
{
    let inner = in_brackets(field)?;
    MessageId::new(inner)
}

// What stands between angle brackets.
fn in_brackets(field: &[u8]) -> Option<&[u8]>
    ensures { MatchOption result ((inner : List ℕ) → field.now ≢ 60 ∷ (inner ++ 62 ∷ [])) (λ inner. field.now ≡ 60 ∷ (inner.now ++ 62 ∷ [])) }
{
    field.strip_prefix(b"<")?.strip_suffix(b">")
}

fn bytes_of(field: &[u8]) -> Option<u64>
    ensures { result ≡ bytes_of field.now }
{
    if field.is_empty() {
        return Some(0);
    }
    read_dec(field, MOST_OCTETS)
}
