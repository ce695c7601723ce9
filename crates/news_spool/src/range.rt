// Ranges of articles' numbers.
ghost use Rattle.std.specs.Prelude.{◌≡◌, ◌==◌, ◌≤◌, length};
ghost use Rattle.std.specs.List.{position_or_len};

use limits::MOST_ARTICLE;
use numbers::read_dec;

/// The numbers of articles from one to another. There are none where the last is below the first.
#[derive(Clone, Copy, Debug, PartialEq, Eq)]
pub(crate) struct NumberRange {
    /// The least number.
    pub(crate) first: u64,
    /// The greatest number.
    pub(crate) last: u64,
}

impl NumberRange {
    ghost use Rattle.std.specs.Prelude.{◌-◌, min};
    ghost use Rattle.news_spool.specs.Ranges.{range_of};

    // The range that a text gives: two numbers with a hyphen between (RFC 3977, 8.3).
    #[tactic(auto, unfolding(crate::specs::Ranges::range_of))]
    pub(crate) fn from_text(text: &[u8]) -> Option<NumberRange>
        ensures { result ≡ range_of text.now }
    {
        let hyphen = first_hyphen(text);
        if hyphen >= text.len() {
            return None;
        }
        let first = match read_dec(&text[..hyphen], MOST_ARTICLE) {
            Some(first) => first,
            None => return None,
        };
        match read_dec(&text[hyphen + 1..], MOST_ARTICLE) {
            Some(last) => Some(NumberRange { first, last }),
            None => None,
        }
    }

    // Which of so many articles it has, counted from 0: the first, and the one behind the last.
    pub(crate) fn places(self, count: usize) -> (usize, usize)
        ensures start { result.0 ≡ min (self.first - 1) result.1 }
        ensures end { result.1 ≡ min self.last count }
        ensures order { result.0 ≤ result.1 }
        ensures inside { result.1 ≤ count }
    {
        let end = self.last.min(count as u64);
        let start = self.first.saturating_sub(1).min(end);
        (start as usize, end as usize)
    }
}

// The place of the first hyphen, or the length where there is none.
fn first_hyphen(text: &[u8]) -> usize
    ensures place { result ≡ position_or_len (λ byte. byte == 45) text.now }
    ensures inside { result ≤ length text.now }
{
    for (at, byte) in text.iter().enumerate() {
        if *byte == b'-' {
            return at;
        }
    }
    text.len()
}
