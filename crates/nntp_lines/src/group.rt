// The reply to the command that chooses a newsgroup.
ghost use Rattle.std.specs.Prelude.{◌≡◌, ◌==◌, ◌≤◌, length, IfSome, MatchOption, Some, None};
ghost use Rattle.std.specs.List.{position_or_len};
ghost use Rattle.nntp_lines.specs.GroupReply.{IsGroupLine, group_of, numbered};

use limits::MOST_ARTICLE;
use numbers::read_dec;

/// What a server says of a newsgroup that was chosen (RFC 3977, 6.1.1).
#[derive(Clone, Copy, Debug, PartialEq, Eq)]
pub struct GroupReply {
    /// About how many articles there are.
    pub count: u64,
    /// The least number of an article.
    pub low: u64,
    /// The greatest number of an article.
    pub high: u64,
}

/// Reads a status line that answers `GROUP`, without its CRLF: `211`, three decimal numbers up to `MOST_ARTICLE`, each
/// between two spaces, and a name, which isn't read (RFC 3977, 6.1.1). `None` for any other line.
#[tactic(auto, using(crate::proofs::GroupLaws::read_is_line))]
pub fn read_group(line: &[u8]) -> Option<GroupReply>
    ensures reading { result ≡ group_of line.now }
    ensures form { IfSome result (IsGroupLine line.now) }
{
    group_of(line)
}

#[tactic(auto, unfolding(crate::specs::GroupReply::group_of))]
fn group_of(line: &[u8]) -> Option<GroupReply>
    ensures { result ≡ group_of line.now }
{
    if !line.starts_with(b"211 ") {
        return None;
    }
    let (count, rest) = numbered(&line[4..])?;
    let (low, rest) = numbered(rest)?;
    let (high, _) = numbered(rest)?;
    Some(GroupReply { count, low, high })
}

// The number in front of the first space, and what stands behind that space.
#[tactic(auto, unfolding(crate::specs::GroupReply::numbered))]
fn numbered(text: &[u8]) -> Option<(u64, &[u8])>
    ensures { MatchOption result (numbered text.now ≡ None) (λ found. numbered text.now ≡ Some (record { number = found.0; behind = found.1.now })) }
{
    let end = first_space(text);
    if end >= text.len() {
        return None;
    }
    match read_dec(&text[..end], MOST_ARTICLE) {
        Some(number) => Some((number, &text[end + 1..])),
        None => None,
    }
}

// The place of the first space, or the length where there is none.
fn first_space(text: &[u8]) -> usize
    ensures place { result ≡ position_or_len (λ byte. byte == 32) text.now }
    ensures inside { result ≤ length text.now }
{
    for (at, byte) in text.iter().enumerate() {
        if *byte == b' ' {
            return at;
        }
    }
    text.len()
}
