// Keyword lines as text.
ghost use Rattle.std.specs.Prelude.{◌≡◌, ◌≤◌, ◌^◌, take, IfSome};
ghost use Rattle.yenc_lines.specs.KeywordText.{begin_text, end_text, part_text};
ghost use Rattle.limits.specs.declared.TheConstants.{MOST_FILE_BYTES, MOST_KEYWORD_BYTES};

use crate::put::{put_crc, put_decimal, put_number};
use crate::{Begin, EndLine, PartLine};
use limits::MOST_KEYWORD_BYTES;
use numbers::put;

/// Writes a header line, without a line end, to the front of a buffer, and answers its length in bytes (yEnc draft 1.3,
/// "Headers and Trailers"). A part is numbered from 1, and a file has at most 2^40 bytes.
#[tactic(auto, unfolding(crate::specs::KeywordText::begin_text))]
pub fn write_begin(v: &Begin, out: &mut [u8; MOST_KEYWORD_BYTES]) -> usize
    requires part { IfSome v.now.part (λ n. 1 ≤ n) }
    requires size { v.now.size ≤ MOST_FILE_BYTES }
    ensures text { take result out.new ≡ begin_text v.now }
    ensures room { result ≤ MOST_KEYWORD_BYTES }
{
    let at = put(out, 0, b"=ybegin");
    let at = put_number(out, at, b"part", v.part);
    let at = put_number(out, at, b"total", v.total);
    let at = put_number(out, at, b"line", v.line);
    let at = put_decimal(out, at, b"size", v.size);
    let at = put(out, at, b" name=");
    put(out, at, v.name.as_slice())
}

/// Writes a part line, without a line end, to the front of a buffer, and answers its length in bytes (yEnc draft 1.3,
/// "Multi-part Encoded Binaries"). Places count from 1, up to 2^40.
#[tactic(auto, unfolding(crate::specs::KeywordText::part_text))]
pub fn write_part(v: &PartLine, out: &mut [u8; MOST_KEYWORD_BYTES]) -> usize
    requires first { 1 ≤ v.now.begin }
    requires begin { v.now.begin ≤ MOST_FILE_BYTES }
    requires end { v.now.end ≤ MOST_FILE_BYTES }
    ensures text { take result out.new ≡ part_text v.now }
    ensures room { result ≤ MOST_KEYWORD_BYTES }
{
    let at = put(out, 0, b"=ypart");
    let at = put_decimal(out, at, b"begin", v.begin);
    put_decimal(out, at, b"end", v.end)
}

/// Writes a trailer line, without a line end, to the front of a buffer, and answers its length in bytes (yEnc draft 1.3,
/// "Headers and Trailers"). A part is numbered from 1, and a file has at most 2^40 bytes.
#[tactic(auto, unfolding(crate::specs::KeywordText::end_text))]
pub fn write_end(v: &EndLine, out: &mut [u8; MOST_KEYWORD_BYTES]) -> usize
    requires part { IfSome v.now.part (λ n. 1 ≤ n) }
    requires size { v.now.size ≤ MOST_FILE_BYTES }
    ensures text { take result out.new ≡ end_text v.now }
    ensures room { result ≤ MOST_KEYWORD_BYTES }
{
    let at = put(out, 0, b"=yend");
    let at = put_decimal(out, at, b"size", v.size);
    let at = put_number(out, at, b"part", v.part);
    let at = put_crc(out, at, b"pcrc32", v.pcrc32);
    put_crc(out, at, b"crc32", v.crc32)
}
