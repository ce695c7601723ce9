// What is said to a news server, and the code of what it answers.
ghost use Rattle.nntp_lines.specs.Command.{HasArticleNumbers};

use nntp_lines::{
    Command, GroupName, LoginWord, MessageId, StatusFault, read_status, write_command,
};
use std::process::Abort;

// Status lines with their codes.
const CODES: [(&str, u16); 5] = [
    ("222 0 <a@b>", 222),
    ("430 none", 430),
    ("200", 200),
    ("205 ", 205),
    ("099 x", 99),
];

// Lines without a code, with bars between them.
const NO_CODES: &str = "|20|2000|20 0|2x0 hello|200\thello";

#[test]
fn a_status_line_gives_its_code(rt: HostRuntime) {
    for (line, code) in CODES {
        assert_eq!(rt; read_status(line.as_bytes()), Ok(code));
    }
    for line in NO_CODES.split('|') {
        assert_eq!(rt; read_status(line.as_bytes()), Err(StatusFault::NotACode));
    }
}

#[test]
fn a_status_line_has_510_bytes_at_most(rt: HostRuntime) {
    let mut line = [b'a'; 511];
    assert_eq!(rt; read_status(&line[..510]), Err(StatusFault::NotACode));
    assert_eq!(rt; read_status(&line), Err(StatusFault::TooLong));
    line[..4].copy_from_slice(b"200 ");
    assert_eq!(rt; read_status(&line[..510]), Ok(200));
    assert_eq!(rt; read_status(&line), Err(StatusFault::TooLong));
}

// Asserts that a command has this text.
fn has_text<R: Abort>(rt: &R, command: Command<'_>, text: &str)
    requires { HasArticleNumbers command }
{
    let mut out = [0; 512];
    let len = write_command(command, &mut out);
    assert!(rt; &out[..len] == text.as_bytes(), "{text:?}");
}

// Asserts the texts of the commands that have words.
fn have_texts<R: Abort>(
    rt: &R,
    id: &MessageId,
    group: &GroupName,
    user: &LoginWord,
    password: &LoginWord,
) {
    has_text(rt, Command::Body(id), "BODY <tok.1of1@example.org>\r\n");
    has_text(rt, Command::Stat(id), "STAT <tok.1of1@example.org>\r\n");
    has_text(rt, Command::Group(group), "GROUP alt.binaries.test\r\n");
    has_text(rt, Command::User(user), "AUTHINFO USER bob\r\n");
    has_text(rt, Command::Pass(password), "AUTHINFO PASS secret\r\n");
}

#[test]
fn commands_have_their_texts(rt: HostRuntime) {
    let id = MessageId::new(b"tok.1of1@example.org").expect(&rt, "a message-id");
    let group = GroupName::new(b"alt.binaries.test").expect(&rt, "a newsgroup");
    let user = LoginWord::new(b"bob").expect(&rt, "a word");
    let password = LoginWord::new(b"secret").expect(&rt, "a word");
    have_texts(&rt, &id, &group, &user, &password);
    has_text(&rt, Command::Post, "POST\r\n");
    has_text(&rt, Command::Quit, "QUIT\r\n");
    let all = Command::Over {
        first: 1,
        last: 9_999_999_999_999_999,
    };
    has_text(&rt, all, "OVER 1-9999999999999999\r\n");
}
