// Commands as a server in memory hears them. Keywords are read in upper case alone.
ghost use Rattle.std.specs.Prelude.{◌≡◌, ◌≢◌, ◌≤◌, length};
ghost use Rattle.news_spool.specs.Answers.{answer_to, article_answer, body_answer, is_authinfo, login_reply, over_answer, pass_reply, stat_answer};

use crate::range::NumberRange;
use crate::reply::{Answer, Reply};
use held_articles::id_in;
use lists::Bytes;
use nntp_lines::MessageId;

// The greatest length of a command in bytes, without its CRLF (RFC 3977, 3.1).
const MOST: usize = 510;

// How many bytes stand before the argument of `AUTHINFO USER ` and `AUTHINFO PASS `.
pub(crate) const LOGIN_WORD: usize = 14;

// How many bytes stand before the argument of `GROUP `.
pub(crate) const GROUP_WORD: usize = 6;

// The answer to a command without its CRLF, by the server's login, whether the link is logged in, and the name that came
// last.
#[tactic(auto, unfolding(crate::specs::Answers::answer_to))]
pub(crate) fn answer_to(
    login: &Option<(Bytes, Bytes)>,
    logged_in: bool,
    name: &Option<Bytes>,
    line: &[u8],
) -> Answer
    ensures answer { result ≡ answer_to login.now logged_in name.now line.now }
    ensures login_word { result ≡ Answer.Line Reply.PassNext → 14 ≤ length line.now }
    ensures group_word { result ≡ Answer.Group → 6 ≤ length line.now }
{
    if line.len() > MOST {
        return Answer::Line(Reply::What);
    }
    if line == b"QUIT".as_slice() {
        return Answer::Line(Reply::Bye);
    }
    if is_authinfo(line) {
        return Answer::Line(login_reply(login, name, line));
    }
    if login.is_some() && !logged_in {
        return Answer::Line(Reply::LoginFirst);
    }
    if line == b"POST".as_slice() {
        return Answer::Line(Reply::Send);
    }
    if line.strip_prefix(b"GROUP ").is_some() {
        return Answer::Group;
    }
    match line.strip_prefix(b"OVER ") {
        Some(range) => over_answer(NumberRange::from_text(range)),
        None => article_answer(line),
    }
}

// The answer to a command that asks for an article by its message-id, and to one that the server doesn't know.
#[tactic(auto, unfolding(crate::specs::Answers::article_answer))]
fn article_answer(line: &[u8]) -> Answer
    ensures answer { result ≡ article_answer line.now }
    ensures login_word { result ≢ Answer.Line Reply.PassNext }
    ensures group_word { result ≢ Answer.Group }
{
    if let Some(word) = line.strip_prefix(b"BODY ") {
        return body_answer(id_in(word));
    }
    match line.strip_prefix(b"STAT ") {
        Some(word) => stat_answer(id_in(word)),
        None => Answer::Line(Reply::What),
    }
}

fn body_answer(id: Option<MessageId>) -> Answer
    ensures answer { result ≡ body_answer id }
    ensures login_word { result ≢ Answer.Line Reply.PassNext }
    ensures group_word { result ≢ Answer.Group }
{
    match id {
        Some(id) => Answer::Body(id),
        None => Answer::Line(Reply::What),
    }
}

fn stat_answer(id: Option<MessageId>) -> Answer
    ensures answer { result ≡ stat_answer id }
    ensures login_word { result ≢ Answer.Line Reply.PassNext }
    ensures group_word { result ≢ Answer.Group }
{
    match id {
        Some(id) => Answer::Stat(id),
        None => Answer::Line(Reply::What),
    }
}

fn over_answer(range: Option<NumberRange>) -> Answer
    ensures answer { result ≡ over_answer range }
    ensures login_word { result ≢ Answer.Line Reply.PassNext }
    ensures group_word { result ≢ Answer.Group }
{
    match range {
        Some(range) => Answer::Overview(range),
        None => Answer::Line(Reply::What),
    }
}

fn is_authinfo(line: &[u8]) -> bool
    ensures { result ≡ is_authinfo line.now }
{
    line == b"AUTHINFO".as_slice() || line.strip_prefix(b"AUTHINFO ").is_some()
}

fn login_reply(login: &Option<(Bytes, Bytes)>, name: &Option<Bytes>, line: &[u8]) -> Reply
    ensures reply { result ≡ login_reply login.now name.now line.now }
    ensures word { result ≡ Reply.PassNext → 14 ≤ length line.now }
{
    match login {
        None => Reply::NoLogin,
        Some(own) => {
            if line.strip_prefix(b"AUTHINFO USER ").is_some() {
                return Reply::PassNext;
            }
            match line.strip_prefix(b"AUTHINFO PASS ") {
                Some(password) => pass_reply(own, name, password),
                None => Reply::What,
            }
        }
    }
}

fn pass_reply(own: &(Bytes, Bytes), name: &Option<Bytes>, password: &[u8]) -> Reply
    ensures reply { result ≡ pass_reply own.now name.now password.now }
    ensures word { result ≢ Reply.PassNext }
{
    match name {
        None => Reply::NameFirst,
        Some(name) => {
            if own.0.as_slice() == name.as_slice() && own.1.as_slice() == password {
                Reply::LoggedIn
            } else {
                Reply::WrongLogin
            }
        }
    }
}
