// The lines of a text, one after another.
ghost use Rattle.std.specs.Prelude.{◌≡◌, ◌<◌, ◌≤◌, ◌-◌, ◌∷◌, length, take, drop};
ghost use Rattle.std.specs.Str.Lines.{strip_carriage_return};
ghost use Rattle.lists.specs.Text.{text_lines};

use memchr::memchr;

/// Where a line stops, and where the next one begins.
#[derive(Clone, Copy, Debug, PartialEq, Eq)]
pub(crate) struct LineEnd {
    pub stop: usize,
    pub next: usize,
}

/// The end of the line that begins at a place before the text's end: up to the next LF, without a CR just before it, or all that is left.
pub(crate) fn line_end(text: &[u8], start: usize) -> LineEnd
    requires { start < length text.now }
    ensures order { (start ≤ result.stop) × (result.stop ≤ result.next) }
    ensures within { (start < result.next) × (result.next ≤ length text.now) }
    ensures first { text_lines (drop start text.now) ≡ take (result.stop - start) (drop start text.now) ∷ text_lines (drop result.next text.now) }
{
    match memchr(b'\n', &text[start..]) {
        Some(len) => LineEnd {
            stop: before_return(text, start, start + len),
            next: start + len + 1,
        },
        None => LineEnd {
            stop: text.len(),
            next: text.len(),
        },
    }
}

// The end of a line that an LF ends, before its CR where it has one.
fn before_return(text: &[u8], start: usize, stop: usize) -> usize
    requires inside { (start ≤ stop) × (stop ≤ length text.now) }
    ensures order { (start ≤ result) × (result ≤ stop) }
    ensures stripped { take (result - start) (drop start text.now) ≡ strip_carriage_return (take (stop - start) (drop start text.now)) }
{
    if start < stop && text[stop - 1] == b'\r' {
        stop - 1
    } else {
        stop
    }
}
