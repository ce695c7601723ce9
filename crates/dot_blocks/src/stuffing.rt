// Making a block.
ghost use Rattle.std.specs.Prelude.{◌≡◌, ◌++◌, ◌∷◌, [], ℕ, List, OnOk, OnErr, All};
ghost use Rattle.dot_blocks.specs.Blocks.{HoldsNoLineEnd, IsBlock, stuffed, stuffed_line};

use lists::{Bytes, Lines, Memory};

/// Appends the block of the lines: each with CRLF, and with one dot more where it begins with a dot, and then a dot and
/// CRLF (RFC 3977, section 3.1.1). Where memory runs out, the bytes are as they were.
///
/// No line holds CR followed by LF. The standard allows no NUL, CR or LF in a line at all, which the sender has to see to.
pub fn stuff(lines: &Lines, out: &mut Bytes) -> Result<(), Memory>
    requires { All HoldsNoLineEnd lines.now }
    ensures ok { OnOk result (out.new ≡ out.old ++ stuffed lines.now) }
    ensures err { OnErr result (out.new ≡ out.old) }
    ensures block { IsBlock lines.now (stuffed lines.now) }
{
    let before = out.len();
    match append_block(lines, out) {
        Ok(()) => Ok(()),
        Err(Memory) => {
            out.truncate(before);
            Err(Memory)
        }
    }
}

// The same, but it leaves what it has appended where memory runs out.
fn append_block(lines: &Lines, out: &mut Bytes) -> Result<(), Memory>
    ensures ok { OnOk result (out.new ≡ out.old ++ stuffed lines.now) }
    ensures err { OnErr result ((more : List ℕ) × (out.new ≡ out.old ++ more)) }
{
    for i in 0..lines.len() {
        append_line(lines.line(i), out)?;
    }
    out.extend(b".\r\n")
}

fn append_line(line: &[u8], out: &mut Bytes) -> Result<(), Memory>
    ensures ok { OnOk result (out.new ≡ out.old ++ (stuffed_line line.now ++ 13 ∷ 10 ∷ [])) }
    ensures err { OnErr result ((more : List ℕ) × (out.new ≡ out.old ++ more)) }
{
    if !line.is_empty() && line[0] == b'.' {
        out.push(b'.')?;
    }
    out.extend(line)?;
    out.extend(b"\r\n")
}
