// Lines as they are sent: with CRLF, and with one dot more before a line that begins with a dot (RFC 3977, 3.1.1).
ghost use Rattle.std.specs.Prelude.{◌≡◌, ◌≤◌, ◌++◌, ◌∷◌, [], length, IfOk, OnOk};
ghost use Rattle.poster.specs.Wire.{SendsData, SendsLines, dot_before};
ghost use Rattle.limits.specs.declared.TheConstants.{LEAST_LINE, MOST_LINE};

use lists::{Bytes, Lines, Memory};
use yenc_bytes::{LONGEST_LINE, fill_line};

// Appends lines as they are sent, and answers how many dots they have more.
pub(crate) fn push_lines(lines: &Lines, block: &mut Bytes) -> Result<usize, Memory>
    ensures lines { IfOk result (SendsLines lines.now block.old block.new) }
    ensures few { IfOk result (λ dots. dots ≤ length lines.now) }
{
    let mut dots = 0;
    for i in 0..lines.len() {
        dots += push_line(lines.line(i), block)?;
    }
    Ok(dots)
}

// Appends the data lines of a part's bytes as they are sent, of a line length from `LEAST_LINE` to `MOST_LINE`, and answers how
// many dots they have more (yEnc draft 1.3, "Encoding Technique").
pub(crate) fn push_data(bytes: &[u8], line: u16, block: &mut Bytes) -> Result<usize, Memory>
    requires least { LEAST_LINE ≤ line }
    requires most { line ≤ MOST_LINE }
    ensures data { IfOk result (SendsData line bytes.now block.old block.new) }
    ensures few { IfOk result (λ dots. dots ≤ length bytes.now) }
{
    let mut buffer = [0; LONGEST_LINE];
    let mut dots = 0;
    let mut rest = bytes;
    while !rest.is_empty() {
        let (used, len) = fill_line(rest, line, &mut buffer);
        dots += push_line(&buffer[..len], block)?;
        rest = rest.split_at(used).1;
    }
    Ok(dots)
}

// Appends a line as it is sent, and answers how many dots it has more.
fn push_line(line: &[u8], block: &mut Bytes) -> Result<usize, Memory>
    ensures line { IfOk result (SendsLines (line.now ∷ []) block.old block.new) }
    ensures few { IfOk result (λ dots. dots ≤ 1) }
{
    let dots = push_dot(line, block)?;
    block.extend(line)?;
    block.extend(b"\r\n")?;
    Ok(dots)
}

// Appends the dot that stands before a line that begins with a dot, and answers how many that are.
fn push_dot(line: &[u8], block: &mut Bytes) -> Result<usize, Memory>
    ensures dot { OnOk result (block.new ≡ block.old ++ dot_before line.now) }
    ensures count { IfOk result (λ dots. dots ≡ length (dot_before line.now)) }
    ensures few { IfOk result (λ dots. dots ≤ 1) }
{
    if line.is_empty() || line[0] != b'.' {
        return Ok(0);
    }
    block.push(b'.')?;
    Ok(1)
}
