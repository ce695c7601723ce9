// The data lines of a part's bytes, as a text in pieces.
ghost use Rattle.std.specs.Prelude.{◌≡◌, ◌≤◌, ◌+◌, [], ◌∷◌, ◌++◌, length, take};
ghost use Rattle.yenc_text.specs.Text.{IsPiece};
ghost use Rattle.limits.specs.declared.TheConstants.{LEAST_LINE, MOST_LINE};

use yenc_bytes::{LONGEST_LINE, fill_line};

/// How many bytes a piece has room for.
pub const PIECE: usize = 65_536;

/// Puts the text of the next data lines of a part's bytes to the front of a piece, as many as it has room for, of a line length
/// from `LEAST_LINE` to `MOST_LINE` (yEnc draft 1.3, "Encoding Technique"). Answers how many of the bytes they have, and how long their text
/// is. Where there are bytes, there is at least one line.
pub fn fill_piece(rest: &[u8], line: u16, piece: &mut [u8; PIECE]) -> (usize, usize)
    requires least { LEAST_LINE ≤ line }
    requires most { line ≤ MOST_LINE }
    ensures text { IsPiece line rest.now result.0 (take result.1 piece.new) }
    ensures inside { result.0 ≤ length rest.now }
    ensures some { 1 ≤ length rest.now → 1 ≤ result.0 }
    ensures room { result.1 ≤ 65536 }
{
    let mut buffer = [0; LONGEST_LINE];
    let mut used = 0;
    let mut len = 0;
    while used < rest.len() && len < PIECE - LONGEST_LINE {
        let left = rest.split_at(used).1;
        let (count, width) = fill_line(left, line, &mut buffer);
        put_line(piece, len, &buffer[..width]);
        put_line_end(piece, len + width);
        used += count;
        len += width + 2;
    }
    (used, len)
}

// Puts a line behind the first bytes of a piece.
fn put_line(piece: &mut [u8; PIECE], len: usize, line: &[u8])
    requires { len + length line.now ≤ 65536 }
    ensures { take (len + length line.now) piece.new ≡ take len piece.old ++ line.now }
{
    let stop = len + line.len();
    piece[len..stop].copy_from_slice(line);
}

// Puts the end of a line behind the first bytes of a piece.
fn put_line_end(piece: &mut [u8; PIECE], len: usize)
    requires { len + 2 ≤ 65536 }
    ensures { take (len + 2) piece.new ≡ take len piece.old ++ 13 ∷ 10 ∷ [] }
{
    piece[len] = b'\r';
    piece[len + 1] = b'\n';
}
