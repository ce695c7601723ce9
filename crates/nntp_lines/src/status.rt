// The code of a status line.
ghost use Rattle.std.specs.Prelude.{◌≡◌, IfOk, IfErr};
ghost use Rattle.nntp_lines.specs.StatusLine.{IsStatusLine, HasStatusFault, code_of, is_end_or_space, status_of};

use numbers::read_dec;

// The greatest length in bytes, without CRLF.
const MOST: usize = 510;

/// Why a line is no status line (RFC 3977, 3.1 and 3.2).
#[derive(Clone, Copy, Debug, PartialEq, Eq)]
pub enum StatusFault {
    /// It doesn't begin with three digits behind which it ends, or a space stands.
    NotACode,
    /// It has more than 510 bytes, which are more than 512 with its CRLF.
    TooLong,
}

/// Reads the code of a status line without its CRLF: three digits, and then the line's end or a space (RFC 3977, 3.1 and
/// 3.2). What follows the code isn't read. A line of more than 510 bytes is refused as too long, whatever it says.
pub fn read_status(line: &[u8]) -> Result<u16, StatusFault>
    ensures code { IfOk result (IsStatusLine line.now) }
    ensures fault { IfErr result (HasStatusFault line.now) }
    ensures reading { result ≡ status_of line.now }
{
    if line.len() > MOST {
        return Err(StatusFault::TooLong);
    }
    code_of(line).ok_or(StatusFault::NotACode)
}

// The code that a line begins with, where it begins with one.
fn code_of(line: &[u8]) -> Option<u16>
    ensures { result ≡ code_of line.now }
{
    if line.len() < 3 || !is_end_or_space(&line[3..]) {
        return None;
    }
    match read_dec(&line[..3], 999) {
        Some(code) => Some(code as u16),
        None => None,
    }
}

// Whether a line ends here, or goes on with a space.
fn is_end_or_space(text: &[u8]) -> bool
    ensures { result ≡ is_end_or_space text.now }
{
    text.is_empty() || text[0] == b' '
}
