// The replies of a server in memory.
ghost use Rattle.std.specs.Prelude.{◌≡◌};
ghost use Rattle.news_spool.specs.Answers.{reply_line};

use crate::range::NumberRange;
use nntp_lines::MessageId;

/// What a command is answered.
#[derive(Debug, Drop)]
pub(crate) enum Answer {
    /// This line, whatever the articles are.
    Line(Reply),
    /// What the articles say of the newsgroup that is named (RFC 3977, 6.1.1).
    Group,
    /// The overview of the articles with these numbers (RFC 3977, 8.3).
    Overview(NumberRange),
    /// The body of the article with this message-id (RFC 3977, 6.2.3).
    Body(MessageId),
    /// Whether there is an article with this message-id (RFC 3977, 6.2.4).
    Stat(MessageId),
}

/// What a server says, a status line each (RFC 3977, and RFC 4643 for the login).
#[derive(Clone, Copy, Debug, PartialEq, Eq)]
pub(crate) enum Reply {
    /// The greeting, which allows posting (RFC 3977, 5.1).
    Ready,
    /// The article that is to be posted may be sent (RFC 3977, 6.3.1).
    Send,
    /// The article was taken.
    Posted,
    /// The article was not taken.
    Refused,
    /// No article is in the newsgroup that is named (RFC 3977, 6.1.1).
    NotInGroup,
    /// No newsgroup was chosen before an overview (RFC 3977, 8.3).
    NoneChosen,
    /// No article of the newsgroup is in the range.
    NoneInRange,
    /// No article has the message-id that is given (RFC 3977, 6.2.3), or the server lacks it.
    NoneWithId,
    /// The overview follows.
    Follows,
    /// The session ends (RFC 3977, 5.4).
    Bye,
    /// A login has to come first (RFC 4643, 2.2).
    LoginFirst,
    /// A password has to follow the name (RFC 4643, 2.3).
    PassNext,
    /// The login is done.
    LoggedIn,
    /// A name has to come before the password.
    NameFirst,
    /// The name and the password are not the server's.
    WrongLogin,
    /// The server knows no login.
    NoLogin,
    /// The command is none that the server knows, or isn't followed by what it asks for.
    What,
}

impl Reply {
    // The status line without its CRLF.
    pub(crate) fn line(self) -> &'static [u8]
        ensures { result.now ≡ reply_line self }
    {
        match self {
            Reply::Ready => b"200 ready",
            Reply::Send => b"340 send",
            Reply::Posted => b"240 posted",
            Reply::Refused => b"441 refused",
            Reply::NotInGroup => b"411 none",
            Reply::NoneChosen => b"412 no group",
            Reply::NoneInRange => b"423 none",
            Reply::NoneWithId => b"430 none",
            Reply::Follows => b"224 follows",
            Reply::Bye => b"205 bye",
            Reply::LoginFirst => b"480 login",
            Reply::PassNext => b"381 more",
            Reply::LoggedIn => b"281 in",
            Reply::NameFirst => b"482 order",
            Reply::WrongLogin => b"481 refused",
            Reply::NoLogin => b"502 no",
            Reply::What => b"500 what",
        }
    }
}
