// A reply to BODY as it came off the wire.
ghost use Rattle.std.specs.Prelude.{◌≤◌, length, IfSome, MatchResult};
ghost use Rattle.usebin_cli.specs.Reply.{IsBodyReply, IsReplyError, ReadsStatus};

use dot_blocks::{BlockError, line_len, split_block};
use lists::Lines;
use nntp_lines::read_status;
use run_ends::{End, ReplyFault};
use std::alloc::Global;

// The code of a reply that goes on with the body of an article (RFC 3977, section 6.2.3).
const BODY_FOLLOWS: u16 = 222;

/// The lines of the body in a reply.
pub(crate) fn reply_lines(alloc: Global, text: &[u8]) -> Result<Lines, End>
    ensures { MatchResult result (IsBodyReply text.now) (IsReplyError text.now) }
{
    let Some((code, used)) = front_status(text) else {
        return Err(End::NoReply(ReplyFault::NoReply));
    };
    if code != BODY_FOLLOWS {
        return Err(End::NoReply(ReplyFault::Code(code)));
    }
    match split_block(alloc, &text[used..]) {
        Ok(lines) => Ok(lines),
        Err(BlockError::Memory) => Err(End::NoMemory),
        Err(BlockError::Unfinished) => Err(End::NoReply(ReplyFault::Unfinished)),
        Err(BlockError::Rest(_)) => Err(End::NoReply(ReplyFault::Rest)),
    }
}

// The code of the status line at a text's front, and how many bytes it has with its CRLF.
fn front_status(text: &[u8]) -> Option<(u16, usize)>
    ensures status { ReadsStatus text.now result }
    ensures inside { IfSome result (λ found. found.1 ≤ length text.now) }
{
    let len = line_len(text)?;
    match read_status(&text[..len]) {
        Ok(code) => Some((code, len + 2)),
        Err(_) => None,
    }
}
