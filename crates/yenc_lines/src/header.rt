// The items of a header line, up to its name.
ghost use Rattle.std.specs.Prelude.{◌≡◌, ◌≤◌, ◌+◌, ℕ, length, drop, Ok, Err, None, Some, MatchResult, IfOk, MatchOption};
ghost use Rattle.std.specs.List.{slice_split};
ghost use Rattle.yenc_lines.specs.Keywords.{is_space, items_in, trimmed, ybegin};
ghost use Rattle.yenc_lines.specs.Gathered.{gathered, named_of, nothing, plain_of};
ghost use Rattle.limits.specs.declared.TheConstants.{MOST_KEYWORD_BYTES};

use crate::item::first_at;
use crate::items::{Numbers, take};
use crate::{Key, KeyFault};

// The numbers of all items before the name, and the place of the name's text where there is one.
pub(crate) fn read_header(text: &[u8]) -> Result<(Numbers, Option<usize>), KeyFault>
    requires { length text.now ≤ MOST_KEYWORD_BYTES }
    ensures numbers { let items = items_in ybegin.known (slice_split is_space text.now) in MatchResult result (λ header. gathered nothing (plain_of items) ≡ Ok header.0) (λ fault. gathered nothing (plain_of items) ≡ Err fault) }
    ensures name { let named = named_of (items_in ybegin.known (slice_split is_space text.now)) in IfOk result (λ header. MatchOption header.1 (named ≡ None) (λ at. (at ≤ length text.now) × (named ≡ Some (trimmed (drop at text.now))))) }
{
    let known = [Key::Part, Key::Total, Key::Line, Key::Size];
    let mut numbers = [None; 9];
    let mut at = 0;
    while at <= text.len() {
        let rest = &text[at..];
        if rest.starts_with(b"name=") {
            return Ok((numbers, Some(at + 5)));
        }
        let end = first_at(rest, b' ');
        take(&mut numbers, &known, &rest[..end])?;
        at += end + 1;
    }
    Ok((numbers, None))
}
