// Texts that keep to the rules of heads, commands and servers, and texts that don't.
use article_head::{is_comment, is_domain, is_file_name, is_from, is_newsgroups, is_token};
use nntp_lines::{GroupName, LoginWord, MessageId};
use server_logins::is_server;
use std::process::Abort;

// What a text may be.
#[derive(Clone, Copy, Debug)]
enum Rule {
    From,
    Newsgroups,
    Comment,
    FileName,
    Token,
    Domain,
    Server,
    Id,
    Group,
    Word,
}

// Whether a text keeps to a rule. What is made of one that does has its bytes.
fn keeps<R: Abort>(rt: &R, rule: Rule, text: &[u8]) -> bool {
    match rule {
        Rule::From => is_from(text),
        Rule::Newsgroups => is_newsgroups(text),
        Rule::Comment => is_comment(text),
        Rule::FileName => is_file_name(text),
        Rule::Token => is_token(text),
        Rule::Domain => is_domain(text),
        Rule::Server => is_server(text),
        Rule::Id => match MessageId::new(text) {
            Some(id) => is_same(rt, id.as_slice(), text),
            None => false,
        },
        Rule::Group => match GroupName::new(text) {
            Some(group) => is_same(rt, group.as_slice(), text),
            None => false,
        },
        Rule::Word => match LoginWord::new(text) {
            Some(word) => is_same(rt, word.as_slice(), text),
            None => false,
        },
    }
}

// Asserts that bytes are those of a text.
fn is_same<R: Abort>(rt: &R, bytes: &[u8], text: &[u8]) -> bool {
    assert!(rt; bytes == text);
    true
}

// Rules with texts that keep to them and texts that don't, with bars between them.
const TEXTS: [(Rule, &str, &str); 10] = [
    (
        Rule::From,
        "me@example.org|A Person <me@example.org>",
        "| me|me |me\r\nControl: x|\u{e4}",
    ),
    (
        Rule::Newsgroups,
        "alt.binaries.test|alt.binaries.test,misc.test|a,b,c,d,e,f,g,h,i,j",
        "|,|a,|,a|a,,b|a, b|a,b,c,d,e,f,g,h,i,j,k",
    ),
    (Rule::Comment, "|my \"files\"", " "),
    (Rule::FileName, "d", ""),
    (Rule::Token, "tok|-_Az09", "|a.b|a@b|a b"),
    (
        Rule::Domain,
        "example.org|x|a-b.c.d",
        "|.|.org|example.|example..org|a_b.org",
    ),
    (
        Rule::Server,
        "127.0.0.1:1190|news.example.org:119|A-b.C:65535|a:1|a:10",
        "|a|:|a:|:119|a:0|a:0119|a:01|a:65536|a:99999999999999999999|a:119 |a:+119|a:119:1|a_b:119|a b:119|[::1]:119",
    ),
    (
        Rule::Id,
        "a@b|!|a<b@c",
        "|a>b|<a@b>|a b|a\tb|a\r\nb|a\x7fb|\u{e4}@b",
    ),
    (
        Rule::Group,
        "alt.binaries.test|A-Z_a-z+0.9|7",
        "|alt.test,misc.test|alt test|alt.*|alt.test\r\nQUIT|alt/test|alt:test|alt@test|alt[test|alt`test|alt{test",
    ),
    (Rule::Word, "bob|!<>\"~", "|a b|a\0b|a\r\nb|a\x7f"),
];

// Asserts that each of these texts keeps to a rule, or that none does.
fn all_keep<R: Abort>(rt: &R, rule: Rule, texts: &str, wanted: bool) {
    for text in texts.split('|') {
        assert!(rt;
            keeps(rt, rule, text.as_bytes()) == wanted,
            "{rule:?} {text:?}"
        );
    }
}

#[test]
fn texts_keep_to_their_rules(rt: HostRuntime) {
    for (rule, taken, refused) in TEXTS {
        all_keep(&rt, rule, taken, true);
        all_keep(&rt, rule, refused, false);
    }
}

// Rules with a byte of which a text may have so many, and one more is too many.
const LENGTHS: [(Rule, u8, usize); 8] = [
    (Rule::From, b'~', 200),
    (Rule::Newsgroups, b'a', 200),
    (Rule::FileName, b'a', 255),
    (Rule::Token, b'a', 64),
    (Rule::Domain, b'a', 64),
    (Rule::Id, b'~', 248),
    (Rule::Group, b'z', 200),
    (Rule::Word, b'~', 200),
];

#[test]
fn texts_are_no_longer_than_their_rules_say(rt: HostRuntime) {
    for (rule, byte, most) in LENGTHS {
        let text = [byte; 256];
        let most = most.min(255);
        assert!(rt; keeps(&rt, rule, &text[..most]), "{rule:?}");
        assert!(rt; !keeps(&rt, rule, &text[..most + 1]), "{rule:?}");
    }
}

#[test]
fn a_host_has_at_most_253_characters(rt: HostRuntime) {
    let mut text = [b'h'; 256];
    text[253] = b':';
    text[254] = b'1';
    assert!(rt; is_server(&text[..255]));
    text[253] = b'h';
    text[254] = b':';
    text[255] = b'1';
    assert!(rt; !is_server(&text));
}
