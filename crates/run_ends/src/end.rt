// The ends of all commands, and the status of each.
ghost use Rattle.std.specs.Prelude.{◌≡◌};
ghost use Rattle.run_ends.specs.Status.{status_of};

use nntp_lines::Why;
use nzb_index::NzbReason;
use yenc_body::Fault;

/// How a run of a command ended. Each end has one status, and all but the first two have one line on standard error.
#[derive(Clone, Copy, Debug, PartialEq, Eq)]
pub enum End {
    /// What the words ask for was done whole.
    Done,
    /// Some part of a file wasn't posted, and all else was done whole.
    NotAllPosted,
    /// The words are refused: the number of the first one that is, from 1.
    WordsRefused(u64),
    /// A call on the input failed.
    InputFault,
    /// A write to the output failed.
    OutputFault,
    /// No link was opened.
    NoLink,
    /// A read gave no byte at this place, below the file's length.
    Short(u64),
    /// This limit is passed.
    Limit(Limit),
    /// The lines of a saved text are no body, and have this first fault.
    NoBody(Fault),
    /// A saved text is no reply with a body.
    NoReply(ReplyFault),
    /// A text is no NZB, for this reason at this place.
    NoNzb { place: usize, reason: NzbReason },
    /// The line of this number is the first of a login file that breaks a rule.
    LoginBroken(u64),
    /// No memory was left.
    NoMemory,
    /// The server refused what it was asked for, with this code.
    Refused(u16),
    /// The link was over, for this reason, before what the words ask for was begun or heard.
    Over(Why),
}

/// A limit that is passed.
#[derive(Clone, Copy, Debug, PartialEq, Eq)]
pub enum Limit {
    /// The file has too many bytes.
    File,
    /// The file has too many parts of the asked length, or the index would have too many segments.
    Segments,
    /// The file has no such part. It has so many.
    Part(u32),
    /// The saved text has too many bytes.
    Text,
    /// The index would have too many files.
    Files,
    /// The login file has too many bytes.
    Login,
}

/// Why a text is no reply with a body.
#[derive(Clone, Copy, Debug, PartialEq, Eq)]
pub enum ReplyFault {
    /// It doesn't begin with a status line and CRLF.
    NoReply,
    /// Its status line has this code, and not 222.
    Code(u16),
    /// No block stands behind its status line.
    Unfinished,
    /// More follows its block.
    Rest,
}

/// The exit status of an end.
///
/// | Status | End |
/// |---|---|
/// | 0 | all was done |
/// | 1 | some part of a file wasn't posted, and all else was done |
/// | 2 | the words are refused |
/// | 3 | a call on the input failed |
/// | 4 | a write to the output failed |
/// | 5 | no link was opened |
/// | 6 | what is read is refused: a read gave no byte, a limit is passed, or a text isn't in its grammar |
/// | 7 | no memory was left |
/// | 8 | the server refused what it was asked for |
/// | 9 | the link was over |
pub fn status(end: &End) -> u8
    ensures { result ≡ status_of end.now }
{
    match end {
        End::Done => 0,
        End::NotAllPosted => 1,
        End::WordsRefused(_) => 2,
        End::InputFault => 3,
        End::OutputFault => 4,
        End::NoLink => 5,
        End::Short(_)
        | End::Limit(_)
        | End::NoBody(_)
        | End::NoReply(_)
        | End::NoNzb { .. }
        | End::LoginBroken(_) => 6,
        End::NoMemory => 7,
        End::Refused(_) => 8,
        End::Over(_) => 9,
    }
}
