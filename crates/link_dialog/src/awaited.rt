// What a reply answers.

/// What a reply answers: the opening of a link, or a message that was sent.
#[derive(Clone, Copy, Debug, PartialEq, Eq)]
pub enum Awaited {
    /// The opening of the link (RFC 3977, 5.1).
    Greeting,
    /// `AUTHINFO USER` (RFC 4643, 2.3).
    User,
    /// `AUTHINFO PASS` (RFC 4643, 2.3).
    Pass,
    /// `POST` (RFC 3977, 6.3.1).
    Post,
    /// An article that is posted (RFC 3977, 6.3.1).
    Article,
    /// `GROUP` (RFC 3977, 6.1.1).
    Group,
    /// `OVER` (RFC 3977, 8.3). A block follows 224.
    Over,
    /// `BODY` (RFC 3977, 6.2.3). A block follows 222.
    Body,
    /// `QUIT` (RFC 3977, 5.4).
    Quit,
}
