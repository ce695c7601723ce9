// What an end means for its reader.

use nntp_lines::Why;
use nzb_index::NzbReason;
use run_ends::{End, Limit, ReplyFault};
use yenc_body::Reason;

/// What an end means for its reader, where there is more to say of it than its line does.
pub(crate) fn meaning_of(end: &End) -> Option<&'static str> {
    match *end {
        End::Short(_) => Some("the file has become shorter while it was read"),
        End::Limit(limit) => Some(limit_meaning(limit)),
        End::NoBody(fault) => Some(fault_meaning(fault.reason)),
        End::NoReply(fault) => Some(reply_meaning(fault)),
        End::NoNzb { reason, .. } => Some(nzb_meaning(reason)),
        End::LoginBroken(_) => Some(
            "that line of the login file isn't `HOST:PORT USER PASSWORD` with one space between, or its HOST:PORT stood before",
        ),
        End::Refused(code) => refusal_meaning(code),
        End::Over(why) => Some(link_meaning(why)),
        End::Done
        | End::NotAllPosted
        | End::WordsRefused(_)
        | End::InputFault
        | End::OutputFault
        | End::NoLink
        | End::NoMemory => None,
    }
}

// Why the lines of a saved text are no body.
fn fault_meaning(reason: Reason) -> &'static str {
    match reason {
        Reason::NoBegin => {
            "no line begins with `=ybegin `: this is no yEnc body, or its beginning is missing"
        }
        Reason::BadBegin(_) => {
            "an item of the line `=ybegin` is damaged or missing, so that the file can't be told"
        }
        Reason::PartRange => {
            "the part's range isn't one of the file, or it has more than 16777216 bytes: the line is damaged, or made by a broken program"
        }
        Reason::NoPart => "`=ybegin` speaks of a part, and no line `=ypart` follows it",
        Reason::BadPart(_) => {
            "an item of the line `=ypart` is damaged or missing, so that the part's place can't be told"
        }
        Reason::Stray =>
            "a byte stands there that no encoder writes: the article was damaged on its way",
        Reason::LoneEscape => "a line ends within an escape: the article was damaged on its way",
        Reason::TooMany =>
            "there are more bytes than the part has: the article was damaged on its way",
        Reason::Keyword =>
            "another line begins with `=y` before `=yend`: two articles were mixed up",
        Reason::KeywordTooLong => "a line that begins with `=y` has more than 1024 bytes",
        Reason::NoEnd => "the text ends before `=yend`: the article was cut short",
        Reason::BadEnd(_) => {
            "an item of the line `=yend` is damaged or missing, so that the bytes can't be compared"
        }
        Reason::EndPart(_, _) =>
            "`=yend` speaks of another part than `=ybegin`: two articles were mixed up",
        Reason::EndSize(_, _) => {
            "`=yend` speaks of another length than `=ybegin` or `=ypart`: the article is damaged"
        }
        Reason::TooFew(_, _) =>
            "there are fewer bytes than the part has: some of the article is missing",
        Reason::CrcDiffers(_, _) => {
            "the CRC-32 of the bytes isn't the one that `=yend` gives: the article was damaged on its way"
        }
    }
}

// Why a saved reply has no body.
fn reply_meaning(fault: ReplyFault) -> &'static str {
    match fault {
        ReplyFault::NoReply => "it doesn't begin with a status line, as `222 0 <id>`",
        ReplyFault::Code(_) => "the server had no such article, or said something else than it",
        ReplyFault::Unfinished => "the reply ends before its line `.`: it was cut short",
        ReplyFault::Rest => "bytes follow the reply's line `.`: more than one reply was saved",
    }
}

// Why a text is no NZB.
fn nzb_meaning(reason: NzbReason) -> &'static str {
    match reason {
        NzbReason::Ended => "the text ends within an element: the NZB was cut short",
        NzbReason::Unexpected =>
            "that byte can't stand there: this is no XML, or the NZB is damaged",
        NzbReason::BadReference => "`&` begins no reference: in text it is written `&amp;`",
        NzbReason::WrongTag => "an NZB has no such element there",
        NzbReason::DoubleAttribute => "an attribute stands twice in one tag",
        NzbReason::BadNumber => "that attribute has to be a number",
        NzbReason::NoNumber => "a segment has no number",
        NzbReason::BadId => "a segment's text is no message-id",
        NzbReason::Subset => "the document type has declarations of its own, which are never read",
    }
}

// Which limit is passed.
fn limit_meaning(limit: Limit) -> &'static str {
    match limit {
        Limit::File => "the file is longer than any that usebin makes articles of",
        Limit::Segments =>
            "that would be more parts than usebin keeps: a larger --part-size makes fewer",
        Limit::Part(_) => "the file has only so many parts of that size",
        Limit::Text => "the saved text is longer than any that usebin reads",
        Limit::Files => "that would be more files than usebin keeps in one index",
        Limit::Login => "the login file is longer than any that usebin reads",
    }
}

// Why a server refuses (RFC 3977, RFC 4643).
fn refusal_meaning(code: u16) -> Option<&'static str> {
    match code {
        411 => Some("the server has no such newsgroup"),
        412 => Some("the server knows of no newsgroup that was chosen"),
        440 => Some("the server allows no posting"),
        480 => Some("the server wants a login: give one with --login"),
        483 => Some("the server wants an encrypted connection, which usebin doesn't have"),
        500 | 501 | 503 => Some("the server doesn't know that command, or doesn't do it"),
        502 => Some("the server doesn't allow that to you"),
        _ => None,
    }
}

// Why a link was over.
fn link_meaning(why: Why) -> &'static str {
    match why {
        Why::Ended => "the server closed the connection, or it broke",
        Why::Quiet => "the server said nothing for too long: --patience lets it take longer",
        Why::NoReply => "what came is no reply of a news server",
        Why::Greeting(_) => "the server takes no session now",
        Why::Login(481) => "the user or the password is wrong",
        Why::Login(_) => "the server didn't take the login",
        Why::Odd(_) => "the server's reply doesn't fit what it was asked",
        Why::TooLong => "a reply has more bytes than usebin reads",
        Why::Unasked => "the server said more than it was asked for",
    }
}
