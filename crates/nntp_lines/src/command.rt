// Commands, and their text.
ghost use Rattle.std.specs.Prelude.{◌≡◌, ◌≤◌, ◌+◌, ◌++◌, length, take, codes};
ghost use Rattle.nntp_lines.specs.Command.{HasArticleNumbers, HasValidWords, IsCommandLine, command_line, command_text, over_line};
ghost use Rattle.nntp_lines.specs.MessageId.{IsMessageId};

use crate::{GroupName, LoginWord, MessageId};
use numbers::{put, put_number};

/// A command that is sent to a news server (RFC 3977, and RFC 4643 for the login).
#[derive(Clone, Copy, Debug)]
pub enum Command<'a> {
    /// `BODY`: the body of the article with this message-id (RFC 3977, 6.2.3).
    Body(&'a MessageId),
    /// `STAT`: whether the server has the article with this message-id (RFC 3977, 6.2.4).
    Stat(&'a MessageId),
    /// `GROUP`: makes this newsgroup the one that is read (RFC 3977, 6.1.1).
    Group(&'a GroupName),
    /// `OVER`: the overview of the articles with the numbers from the first to the last (RFC 3977, 8.3).
    Over { first: u64, last: u64 },
    /// `POST`: an article will be sent (RFC 3977, 6.3.1).
    Post,
    /// `QUIT`: the end of the session (RFC 3977, 5.4).
    Quit,
    /// `AUTHINFO USER`: the name of the user who logs in (RFC 4643, 2.3).
    User(&'a LoginWord),
    /// `AUTHINFO PASS`: the password of that user (RFC 4643, 2.3).
    Pass(&'a LoginWord),
}

/// Writes a command with its CRLF to the front of a buffer, and answers its length in bytes (RFC 3977, 3.1). Behind it
/// the buffer may hold anything. Numbers of articles have at most 16 digits.
pub fn write_command(c: Command<'_>, out: &mut [u8; 512]) -> usize
    requires { HasArticleNumbers c }
    ensures text { take result out.new ≡ command_text c.entry }
    ensures room { result ≤ 512 }

    // It is one line and no more, so that no word in it can begin a command of its own.
    ensures line { IsCommandLine (take result out.new) }
{
    let end = put_command(c, out);
    put(out, end, b"\r\n")
}

// Writes a command without its CRLF.
fn put_command(c: Command<'_>, out: &mut [u8; 512]) -> usize
    requires { HasArticleNumbers c }
    ensures text { take result out.new ≡ command_line c.entry }
    ensures room { result ≤ 510 }
    ensures words { HasValidWords c.entry }
{
    match c {
        Command::Body(id) => put_id(b"BODY <", id, out),
        Command::Stat(id) => put_id(b"STAT <", id, out),
        Command::Group(name) => put_word(b"GROUP ", name.as_slice(), out),
        Command::Over { first, last } => put_range(first, last, out),
        Command::Post => put(out, 0, b"POST"),
        Command::Quit => put(out, 0, b"QUIT"),
        Command::User(name) => put_word(b"AUTHINFO USER ", name.as_slice(), out),
        Command::Pass(password) => put_word(b"AUTHINFO PASS ", password.as_slice(), out),
    }
}

// Writes a keyword and its argument.
fn put_word(keyword: &[u8], word: &[u8], out: &mut [u8; 512]) -> usize
    requires { length keyword.now + length word.now ≤ 510 }
    ensures text { take result out.new ≡ keyword.now ++ word.now }
    ensures end { result ≡ length keyword.now + length word.now }
{
    let at = put(out, 0, keyword);
    put(out, at, word)
}

// Writes a keyword, which ends with the first angle bracket, and a message-id.
fn put_id(keyword: &[u8], id: &MessageId, out: &mut [u8; 512]) -> usize
    requires { length keyword.now ≤ 16 }
    ensures text { take result out.new ≡ keyword.now ++ id.now ++ codes ">" }
    ensures room { result ≤ 510 }
    ensures rule { IsMessageId id.now }
{
    let at = put_word(keyword, id.as_slice(), out);
    put(out, at, b">")
}

// Writes the command for the overview of a range.
fn put_range(first: u64, last: u64, out: &mut [u8; 512]) -> usize
    ensures text { take result out.new ≡ over_line first last }
    ensures room { result ≤ 510 }
{
    let at = put(out, 0, b"OVER ");
    let at = put_number(out, at, first);
    let at = put(out, at, b"-");
    put_number(out, at, last)
}
