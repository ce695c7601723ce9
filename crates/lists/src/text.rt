// The lines of a saved text.
ghost use Rattle.std.specs.Prelude.{◌≡◌, IfOk};
ghost use Rattle.std.specs.Str.Lines.{strip_carriage_return};
ghost use Rattle.lists.specs.Text.{text_lines};

use crate::{Lines, Memory};
use memchr::memchr;
use std::alloc::Global;

/// Cuts a saved text into lines: at each LF, without a CR just before it. A last piece without LF is a line where it isn't
/// empty.
pub fn split_text(alloc: Global, text: &[u8]) -> Result<Lines, Memory>
    ensures { IfOk result (λ lines. lines ≡ text_lines text.now) }
{
    let mut lines = Lines::new(alloc);
    lines.reserve_bytes(text.len())?;
    let mut at = 0;
    while let Some(len) = memchr(b'\n', &text[at..]) {
        lines.push(without_return(&text[at..at + len]))?;
        at += len + 1;
    }
    if at == text.len() {
        return Ok(lines);
    }
    lines.push(&text[at..])?;
    Ok(lines)
}

// A line without the CR at its end, if it has one.
fn without_return(line: &[u8]) -> &[u8]
    ensures { result.now ≡ strip_carriage_return line.now }
{
    let len = line.len();
    if len > 0 && line[len - 1] == b'\r' {
        &line[..len - 1]
    } else {
        line
    }
}
