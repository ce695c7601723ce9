// A text that is cut at a byte.
ghost use Rattle.std.specs.Prelude.{◌≡◌};
ghost use Rattle.std.specs.Option.{option_map};
ghost use Rattle.server_logins.specs.Cut.{cut_at, cut_model};

use memchr::memchr;

/// A text on both sides of a byte.
#[derive(Clone, Copy, Debug)]
pub struct Cut<'a> {
    /// What stands in front of the byte.
    pub front: &'a [u8],
    /// What stands behind it.
    pub behind: &'a [u8],
}

/// Cuts a text at the first such byte, if it stands anywhere.
pub fn cut_at(text: &[u8], byte: u8) -> Option<Cut<'_>>
    ensures { option_map cut_model result ≡ cut_at byte text.now }
{
    match memchr(byte, text) {
        Some(at) => Some(Cut {
            front: &text[..at],
            behind: &text[at + 1..],
        }),
        None => None,
    }
}
