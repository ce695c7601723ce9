// The logins of news servers.
use nntp_lines::Login;
use server_logins::{LoginError, Logins, read_logins};
use std::process::Abort;

// The logins of a text.
fn logins_of<R: Abort + AllocGlobal>(rt: &R, text: &[u8]) -> Logins {
    match read_logins(rt.alloc(), text) {
        Ok(logins) => logins,
        Err(_) => rt.panic("the lines have logins"),
    }
}

// Servers with their user and password, or with neither.
const LOGINS: [(&str, &str, &str); 6] = [
    ("a:119", "bob", "secret"),
    ("b.example:1190", "eve", "!~"),
    ("A:119", "bob", "x"),
    ("a:1190", "", ""),
    ("b.example:119", "", ""),
    ("", "", ""),
];

// Whether this is the login of a user with a password, or there is none and no user.
fn is_login(login: Option<&Login>, user: &str, pass: &str) -> bool {
    match login {
        Some(login) => {
            !user.is_empty()
                && login.user.as_slice() == user.as_bytes()
                && login.pass.as_slice() == pass.as_bytes()
        }
        None => user.is_empty(),
    }
}

#[test]
fn a_server_has_the_login_of_its_line(rt: HostRuntime) {
    let text = "a:119 bob secret\r\n\n\r\nb.example:1190 eve !~\nA:119 bob x";
    let logins = logins_of(&rt, text.as_bytes());
    for (server, user, pass) in LOGINS {
        let login = logins.login_for(server.as_bytes());
        assert!(rt; is_login(login, user, pass), "{server:?}");
    }
}

#[test]
fn a_text_without_lines_has_no_login(rt: HostRuntime) {
    for text in "|\n|\r\n\n".split('|') {
        let logins = logins_of(&rt, text.as_bytes());
        assert!(rt; logins.login_for(b"a:119").is_none());
    }
}

// Asserts which line is the first that breaks a rule, if one is.
fn breaks<R: Abort + AllocGlobal>(rt: &R, text: &[u8], wanted: Option<u64>) {
    let number = match read_logins(rt.alloc(), text) {
        Ok(_) => None,
        Err(LoginError::Broken(number)) => Some(number),
        Err(LoginError::Memory) => rt.panic("memory"),
    };
    assert!(rt; number == wanted, "{text:?}");
}

// Texts whose line of this number is the first that breaks a rule, with bars between them.
const BROKEN: [(&str, u64); 4] = [
    (
        "x\nx\n| |a:119 bob|a:119|a:119 bob |a:119  bob secret|a:119 bob  secret| a:119 bob secret|a:119 bob secret |a:119 bob secret more|a:119\tbob secret|a:0 bob secret|a:119 bob secret\rb:119 eve x",
        1,
    ),
    ("a:119 bob secret\nx", 2),
    ("\n\nx", 3),
    ("a:119 bob secret\n\nb:119 eve x\na:119 eve x\nx", 4),
];

#[test]
fn the_first_line_that_breaks_a_rule_is_told(rt: HostRuntime) {
    breaks(&rt, b"a:119 bob secret", None);
    breaks(&rt, b"a:119 b\xe9 secret", Some(1));
    for (texts, number) in BROKEN {
        for text in texts.split('|') {
            breaks(&rt, text.as_bytes(), Some(number));
        }
    }
}

// A word of a login has at most 200 bytes.
#[test]
fn a_password_of_201_bytes_is_refused(rt: HostRuntime) {
    let mut text = [b'p'; 209];
    text[..8].copy_from_slice(b"a:1 bob ");
    breaks(&rt, &text[..208], None);
    breaks(&rt, &text, Some(1));
}

#[test]
fn a_password_is_not_printed(rt: HostRuntime) {
    let logins = logins_of(&rt, b"a:119 bob secret");
    let login = logins.login_for(b"a:119").expect(&rt, "a login");
    let text = format!(in rt.alloc(); "{login:?}").expect(&rt, "a text");
    assert!(rt; text.as_str() == "Login { user: LoginWord(..), pass: LoginWord(..) }");
}
