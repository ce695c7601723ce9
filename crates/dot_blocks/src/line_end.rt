// The first CRLF. A LF without a CR before it, and a CR without a LF behind it, end no line.
ghost use Rattle.std.specs.Prelude.{◌≡◌, ◌+◌, ◌≤◌, ◌∷◌, length, take, drop, IfSome, IfNone};
ghost use Rattle.memchr.specs.Find.{IsFirst, Passes, is_byte};
ghost use Rattle.dot_blocks.specs.Blocks.{HoldsNoLineEnd};

use memchr::memchr;

/// How many bytes stand before the first CRLF, where there is one (RFC 3977, section 3.1).
pub fn line_len(bytes: &[u8]) -> Option<usize>
    ensures inside { IfSome result (λ len. len + 2 ≤ length bytes.now) }
    ensures before { IfSome result (λ len. HoldsNoLineEnd (take len bytes.now)) }
    ensures here { IfSome result (λ len. drop len bytes.now ≡ 13 ∷ 10 ∷ drop (len + 2) bytes.now) }
    ensures none { IfNone result (HoldsNoLineEnd bytes.now) }
{
    let mut from = 0;
    while let Some(feed) = next_feed(bytes, from) {
        if feed > 0 && bytes[feed - 1] == b'\r' {
            return Some(feed - 1);
        }
        from = feed + 1;
    }
    None
}

// How many bytes are searched by themselves first. A line of an article is seldom longer, and so short a search begins
// sooner: a split takes a tenth less time.
const NEAR: usize = 176;

// The first LF from a place on.
fn next_feed(bytes: &[u8], from: usize) -> Option<usize>
    requires { from ≤ length bytes.now }
    ensures { IsFirst (Passes (is_byte 10) bytes.now) from (length bytes.now) result }
{
    let near = bytes.len().min(from + NEAR);
    if let Some(ahead) = memchr(b'\n', &bytes[from..near]) {
        return Some(from + ahead);
    }
    let ahead = memchr(b'\n', &bytes[near..])?;
    Some(near + ahead)
}
