// What came of waiting for a reply.
ghost use Rattle.std.specs.Prelude.{◌≡◌, true};

use nntp_lines::{GroupReply, Why};

/// What came of waiting for a reply of one line.
#[derive(Clone, Copy, Debug, PartialEq, Eq)]
pub enum Answer {
    /// The reply has this code, and the link goes on.
    Code(u16),
    /// The reply has this code, but bytes came behind it, which nobody asked for: the link is over.
    Unasked(u16),
    /// The link is over, and the reply wasn't heard whole.
    Over(Why),
}

/// What came of waiting for a reply that may have a block.
#[derive(Clone, Copy, Debug, PartialEq, Eq)]
pub struct BlockAnswer {
    /// What came of it.
    pub answer: Answer,
    /// Whether there was room for the block, if the reply has one.
    pub kept: bool,
}

impl BlockAnswer {
    // The link is over.
    pub(crate) fn over(why: Why) -> Self
        ensures { result ≡ record { answer = Answer.Over why; kept = true } }
    {
        BlockAnswer {
            answer: Answer::Over(why),
            kept: true,
        }
    }
}

/// What came of waiting for the reply to `GROUP`.
#[derive(Clone, Copy, Debug, PartialEq, Eq)]
pub enum GroupAnswer {
    /// The newsgroup is chosen, and this is said of it.
    Chosen(GroupReply),
    /// The newsgroup is chosen, and this is said of it, but bytes came behind the reply, which nobody asked for: the link is
    /// over.
    ChosenUnasked(GroupReply),
    /// The reply has this other code, and the link goes on.
    Code(u16),
    /// The reply has this other code, but bytes came behind it, which nobody asked for: the link is over.
    Unasked(u16),
    /// The link is over, and the reply wasn't heard whole.
    Over(Why),
}
