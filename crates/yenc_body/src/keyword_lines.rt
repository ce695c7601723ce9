// The keyword lines around the data lines of a body.
ghost use Rattle.std.specs.Prelude.{◌≡◌, ◌≤◌, length, take, IfOk};
ghost use Rattle.yenc_body.specs.Canonical.{header, part_line, trailer, IsPart};
ghost use Rattle.limits.specs.declared.TheConstants.{MOST_FILE_BYTES, MOST_KEYWORD_BYTES};

use crate::BodySpec;
use crc_field::Crc;
use limits::MOST_KEYWORD_BYTES;
use lists::Memory;
use yenc_lines::{Begin, EndLine, PartLine, write_begin, write_end, write_part};

/// Writes the header line of a part's body to the front of a buffer, without a line end, and answers its length in bytes (yEnc
/// draft 1.3, "Headers and Trailers"). It takes memory for the name.
#[tactic(auto, unfolding(crate::specs::Canonical::header))]
pub fn put_header(spec: &BodySpec, line: &mut [u8; MOST_KEYWORD_BYTES]) -> Result<usize, Memory>
    requires part { 1 ≤ spec.now.part }
    requires size { spec.now.size ≤ MOST_FILE_BYTES }
    ensures text { IfOk result (λ len. take len line.new ≡ header spec.now) }
    ensures room { IfOk result (λ len. len ≤ MOST_KEYWORD_BYTES) }
{
    let one = spec.total == 1;
    let begin = Begin {
        part: if one { None } else { Some(spec.part) },
        total: if one { None } else { Some(spec.total) },
        line: Some(u32::from(spec.line)),
        size: spec.size,
        name: spec.name.clone()?,
    };
    Ok(write_begin(&begin, line))
}

/// Writes the part line of one part of several to the front of a buffer, without a line end, and answers its length in bytes
/// (yEnc draft 1.3, "Multi-part Encoded Binaries").
#[tactic(auto, unfolding(crate::specs::Canonical::part_line))]
pub fn put_part_line(spec: &BodySpec, bytes: &[u8], line: &mut [u8; MOST_KEYWORD_BYTES]) -> usize
    requires { IsPart spec.now (length bytes.now) }
    ensures text { take result line.new ≡ part_line spec.now bytes.now }
    ensures room { result ≤ MOST_KEYWORD_BYTES }
{
    let part = PartLine {
        begin: spec.first,
        end: spec.first + bytes.len() as u64 - 1,
    };
    write_part(&part, line)
}

/// Writes the trailer line of a part's body to the front of a buffer, without a line end, and answers its length in bytes (yEnc
/// draft 1.3, "Headers and Trailers" and "Verifying Integrity").
#[tactic(auto, unfolding(crate::specs::Canonical::trailer))]
pub fn put_trailer(spec: &BodySpec, bytes: &[u8], line: &mut [u8; MOST_KEYWORD_BYTES]) -> usize
    requires { IsPart spec.now (length bytes.now) }
    ensures text { take result line.new ≡ trailer spec.now bytes.now }
    ensures room { result ≤ MOST_KEYWORD_BYTES }
{
    let mut crc = Crc::new();
    crc.update(bytes);
    let end = if spec.total == 1 {
        EndLine {
            size: spec.size,
            part: None,
            pcrc32: None,
            crc32: Some(crc.value()),
        }
    } else {
        EndLine {
            size: bytes.len() as u64,
            part: Some(spec.part),
            pcrc32: Some(crc.value()),
            crc32: None,
        }
    };
    write_end(&end, line)
}
