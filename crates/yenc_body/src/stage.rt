// Where the lines of a body have come to, without the bytes of its data lines.
ghost use Rattle.std.specs.Prelude.{◌≡◌, ◌≤◌, ◌+◌, [], IfOk};
ghost use Rattle.yenc_body.specs.declared.place.Place.TheVariants.{Opening, Opened};
ghost use Rattle.yenc_body.specs.BodyReading.{line_of, in_range};
ghost use Rattle.yenc_body.specs.ReadBody.{IsInFile};
ghost use Rattle.yenc_body.specs.Staged.{Finds, place_with};
ghost use Rattle.limits.specs.declared.TheConstants.{MOST_FILE_BYTES, MOST_KEYWORD_BYTES};
ghost use Rattle.yenc_body.specs.declared.fault.Reason.TheVariants.{KeywordTooLong};

use crate::Reason;
use limits::{MOST_KEYWORD_BYTES, MOST_PART_BYTES};
use yenc_lines::{Begin, read_begin, read_part};

/// What the lines before the data lines say of a part.
#[derive(Drop)]
pub struct Head {
    /// What the header line says.
    pub begin: Begin,
    /// The offset of the part's first byte in the file, from 1.
    pub first: u64,
    /// The offset of the part's last byte, or the one before `first` where the part has none.
    pub last: u64,
}

/// Where lines without a fault have come to before the trailer line, without the bytes of the data lines.
#[derive(Drop)]
pub enum Stage {
    /// Before the header line.
    Opening,
    /// Behind the header line of this part of several, before its part line.
    Opened(Begin, u32),
    /// Behind the line that fixes the range of offsets.
    Filling(Head),
}

/// What a line is refused for, at a column from 1.
#[derive(Clone, Copy, Debug, PartialEq, Eq)]
pub struct Refusal {
    /// The column of the first character at fault: 1 for what concerns a whole line.
    pub column: u64,
    /// What is wrong there.
    pub reason: Reason,
}

/// Reads a line before the header line, or the header line itself (yEnc draft 1.3, "Headers and Trailers"): any other line is
/// passed over.
#[tactic(auto, unfolding(crate::specs::BodyReading::line_of))]
pub fn read_opening(line: &[u8]) -> Result<Stage, Refusal>
    ensures finds { Finds (line_of Opening line.now) result }
    ensures in_file { IfOk result (λ stage. IsInFile (place_with stage [])) }
{
    if !line.starts_with(b"=ybegin ") {
        return Ok(Stage::Opening);
    }
    if line.len() > MOST_KEYWORD_BYTES {
        return Err(too_long());
    }
    match read_begin(line) {
        Ok(begin) => match begin.part {
            Some(part) => Ok(Stage::Opened(begin, part)),
            None => {
                let size = begin.size;
                fix_range(begin, 1, size)
            }
        },
        Err(fault) => Err(whole_line(Reason::BadBegin(fault))),
    }
}

/// Reads the line behind the header line of a part of several, which is to be its part line (yEnc draft 1.3, "Multi-part Encoded
/// Binaries").
#[tactic(auto, unfolding(crate::specs::BodyReading::line_of))]
pub fn read_range(begin: Begin, part: u32, line: &[u8]) -> Result<Stage, Refusal>
    requires { begin.size ≤ MOST_FILE_BYTES }
    ensures finds { Finds (line_of (Opened begin part) line.now) result }
    ensures in_file { IfOk result (λ stage. IsInFile (place_with stage [])) }
{
    if !line.starts_with(b"=ypart ") {
        return Err(whole_line(Reason::NoPart));
    }
    if line.len() > MOST_KEYWORD_BYTES {
        return Err(too_long());
    }
    match read_part(line) {
        Ok(range) => fix_range(begin, range.begin, range.end),
        Err(fault) => Err(whole_line(Reason::BadPart(fault))),
    }
}

// The stage behind the line that fixes the range, where it is one of the file.
fn fix_range(begin: Begin, first: u64, last: u64) -> Result<Stage, Refusal>
    requires { begin.size ≤ MOST_FILE_BYTES }
    ensures finds { Finds (in_range begin first last) result }
    ensures in_file { IfOk result (λ stage. IsInFile (place_with stage [])) }
{
    if last > begin.size || first > last + 1 || last + 1 - first > u64::from(MOST_PART_BYTES) {
        return Err(whole_line(Reason::PartRange));
    }
    Ok(Stage::Filling(Head { begin, first, last }))
}

/// What concerns a whole line.
pub fn whole_line(reason: Reason) -> Refusal
    ensures { result ≡ record { column = 1; reason = reason } }
{
    Refusal { column: 1, reason }
}

/// A keyword line is too long to be read.
pub(crate) fn too_long() -> Refusal
    ensures { result ≡ record { column = MOST_KEYWORD_BYTES + 1; reason = KeywordTooLong } }
{
    Refusal {
        column: MOST_KEYWORD_BYTES as u64 + 1,
        reason: Reason::KeywordTooLong,
    }
}
