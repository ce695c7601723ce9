// The room that an article takes.
ghost use Rattle.std.specs.Prelude.{◌≡◌, ◌≤◌, ◌+◌, ◌*◌};
ghost use Rattle.limits.specs.declared.TheConstants.{LEAST_LINE, MOST_PART_BYTES};

use limits::MOST_KEYWORD_BYTES;
use lists::{Bytes, Lines, Memory};

// How many lines a head has, with the empty one, and how many octets each has at most (RFC 5536, 3).
const HEAD_LINES: usize = 5;

const HEAD_LINE_OCTETS: usize = 1_000;

// Takes room for the head and the block of an article of so many bytes, of a line length from `LEAST_LINE` on, in buffers that
// are empty. Where a longer article was made in them, none is taken.
pub(crate) fn make_room(
    len: usize,
    line: u16,
    head: &mut Lines,
    block: &mut Bytes,
) -> Result<(), Memory>
    requires len { len ≤ MOST_PART_BYTES }
    requires line { LEAST_LINE ≤ line }
    ensures head { head.new ≡ head.old }
    ensures block { block.new ≡ block.old }
{
    head.reserve(HEAD_LINES)?;
    head.reserve_bytes(HEAD_LINES * HEAD_LINE_OCTETS)?;
    block.reserve(room_of(len, line))
}

// How many bytes the block of an article of so many bytes has at most. A byte has at most two characters, of which one may be
// the dot that a line has more, and each data line but the last one is full.
fn room_of(len: usize, line: u16) -> usize
    requires len { len ≤ MOST_PART_BYTES }
    requires line { LEAST_LINE ≤ line }
    ensures { result ≤ 6 * len + 8084 }
{
    let characters = 2 * len;
    let data_lines = characters / usize::from(line) + 1;
    let around = HEAD_LINES * HEAD_LINE_OCTETS + 3 * (MOST_KEYWORD_BYTES + 2) + 3;
    characters + 2 * data_lines + around
}
