// Why a link is over.

/// Why a link to a news server is over: nothing more is sent or heard on it.
#[derive(Clone, Copy, Debug, PartialEq, Eq)]
pub enum Why {
    /// It was closed, or a call on it failed.
    Ended,
    /// Too many receives after each other got nothing.
    Quiet,
    /// The greeting had this code, and not 200 or 201 (RFC 3977, 5.1).
    Greeting(u16),
    /// A command of the login got this code (RFC 4643, 2.3).
    Login(u16),
    /// A command got this code, which doesn't answer it.
    Odd(u16),
    /// What was heard where a status line should stand is none, or is no answer to the command.
    NoReply,
    /// A reply has more than 67,108,864 bytes without its end.
    TooLong,
    /// Bytes came to which no command was sent.
    Unasked,
}
