// A part's bytes, cut into lines of spellings.
ghost use Rattle.std.specs.Prelude.{◌≡◌, ◌≤◌, ◌<◌, ◌+◌, ◌==◌, ◌||◌, ℕ, List, ◌++◌, length, take, drop, slice_index, OnOk, OnErr};
ghost use Rattle.landing_kernel.specs.Raising.{Raises};
ghost use Rattle.yenc_bytes.specs.WriterLines.{writer_spelling, is_empty, IsWriterLine, AppendsData, OneCanonicalData};
ghost use Rattle.limits.specs.declared.TheConstants.{LEAST_LINE, MOST_LINE};

use crate::spelling::{Spelling, spell};
use landing_kernel::raise;
use lists::{Lines, Memory};

/// How many bytes the buffer of a line has: the greatest line length, one more where its last column has an escape, and behind
/// it room for a block of the kernel.
pub const LONGEST_LINE: usize = 1030;

/// Appends the data lines of a part's bytes, of a line length from `LEAST_LINE` to `MOST_LINE` (yEnc draft 1.3, "Encoding Technique").
/// A part without bytes has none. Where memory runs out, the lines are as they were.
pub fn encode_lines(bytes: &[u8], line: u16, out: &mut Lines) -> Result<(), Memory>
    requires least { LEAST_LINE ≤ line }
    requires most { line ≤ MOST_LINE }
    ensures ok { OnOk result (AppendsData line bytes.now out.old out.new) }
    ensures err { OnErr result (out.new ≡ out.old) }
{
    let before = out.len();
    match append_lines(bytes, line, out) {
        Ok(()) => Ok(()),
        Err(Memory) => {
            out.truncate(before);
            Err(Memory)
        }
    }
}

// The same, but it leaves the lines that it has appended where memory runs out.
fn append_lines(bytes: &[u8], line: u16, out: &mut Lines) -> Result<(), Memory>
    requires least { LEAST_LINE ≤ line }
    requires most { line ≤ MOST_LINE }
    ensures ok { OnOk result (AppendsData line bytes.now out.old out.new) }
    ensures err { OnErr result ((lines : List (List ℕ)) × (out.new ≡ out.old ++ lines)) }
{
    let mut buffer = [0; LONGEST_LINE];
    let mut rest = bytes;
    while !rest.is_empty() {
        let (used, len) = fill_line(rest, line, &mut buffer);
        out.push(&buffer[..len])?;
        rest = rest.split_at(used).1;
    }
    Ok(())
}

/// Writes the next data line of a part's bytes to the front of a buffer, of a line length from `LEAST_LINE` to `MOST_LINE` (yEnc draft 1.3,
/// "Encoding Technique"). Answers how many of the bytes it has, and how long it is. There is a byte at least.
pub fn fill_line(rest: &[u8], line: u16, buffer: &mut [u8; LONGEST_LINE]) -> (usize, usize)
    requires least { LEAST_LINE ≤ line }
    requires most { line ≤ MOST_LINE }
    requires some { 1 ≤ length rest.now }
    ensures line { let ends = is_empty (drop result.0 rest.now) in
        IsWriterLine line ends (take result.0 rest.now) (take result.1 buffer.new) }
    ensures some { 1 ≤ result.0 }
    ensures inside { result.0 ≤ length rest.now }
    ensures room { result.1 ≤ MOST_LINE + 1 }
{
    let width = usize::from(line);
    let mut used = 0;
    let mut len = 0;
    while used < rest.len() && len < width {
        let plain = fill_plain(rest, used, buffer, len, width);
        used += plain;
        len += plain;
        let spelling = spell_at(rest, used, len, width);
        put(buffer, len, spelling);
        len += usize::from(spelling.len);
        used += 1;
    }
    (used, len)
}

// Puts the next bytes of a line that need no escape behind its first characters, and answers how many: not the line's first,
// nor its last.
fn fill_plain(
    rest: &[u8],
    used: usize,
    buffer: &mut [u8; LONGEST_LINE],
    len: usize,
    width: usize,
) -> usize
    requires inside { used < length rest.now }
    requires room { len < width }
    requires most { width ≤ MOST_LINE }
    ensures inside { used + result < length rest.now }
    ensures room { len + result < width }
    ensures first { len ≡ 0 → result ≡ 0 }
    ensures raised { Raises rest.now buffer.old buffer.new used len result }
{
    if len == 0 {
        return 0;
    }
    let most = (width - 1 - len).min(rest.len() - 1 - used);
    raise(rest, used, most, buffer, len)
}

// The spelling of a byte that goes behind so many characters of its line.
fn spell_at(rest: &[u8], used: usize, len: usize, width: usize) -> Spelling
    requires inside { used < length rest.now }
    requires room { len < width }
    ensures text { let force = len == 0 || len + 1 == width || used + 1 == length rest.now in
        take result.len result.bytes ≡ writer_spelling force (slice_index rest.now used) }
    ensures some { 1 ≤ result.len }
    ensures two { result.len ≤ 2 }
{
    let force = len == 0 || len + 1 == width || used + 1 == rest.len();
    spell(rest[used], force)
}

// Puts a spelling behind the first characters of a buffer.
fn put(buffer: &mut [u8; LONGEST_LINE], len: usize, spelling: Spelling)
    requires room { len < MOST_LINE }
    requires some { 1 ≤ spelling.len }
    requires two { spelling.len ≤ 2 }
    ensures { take (len + spelling.len) buffer.new ≡ take len buffer.old ++ take spelling.len spelling.bytes }
{
    buffer[len] = spelling.bytes[0];
    buffer[len + 1] = spelling.bytes[1];
}

/// A part's bytes have at most one list of data lines.
pub fn data_lines_are_one()
    ensures { OneCanonicalData }
{}
