// The head of a part's article, its subject and its message-id.
use article_head::{
    Head, is_comment, is_domain, is_file_name, is_from, is_newsgroups, is_token, part_id,
    write_head, write_subject,
};
use lists::Lines;
use nntp_lines::MessageId;
use row_fixtures::{are_lines, bytes_of};
use std::process::Abort;

// Appends a head whose fields keep to their rules.
fn written<R: Abort>(rt: &R, mut lines: Lines, head: Head<'_>) -> Lines {
    assert!(rt; is_from(head.from));
    assert!(rt; is_newsgroups(head.newsgroups));
    assert!(rt; is_comment(head.comment));
    assert!(rt; is_file_name(head.name));
    write_head(&head, &mut lines).expect(rt, "lines");
    lines
}

// The lines of an article so far, and of a head behind them.
const HEAD: &str =
    "a line of another|From: me@example.org|Newsgroups: alt.binaries.test|Subject: \"d\" yEnc (1/1)|Message-ID: <tok.1of1@example.org>|";

#[test]
fn a_head_has_four_fields_and_an_empty_line(rt: HostRuntime) {
    let id = MessageId::new(b"tok.1of1@example.org").expect(&rt, "a message-id");
    let head = Head {
        from: b"me@example.org",
        newsgroups: b"alt.binaries.test",
        comment: b"",
        name: b"d",
        part: 1,
        total: 1,
        id: &id,
    };
    let mut lines = Lines::new(rt.alloc());
    lines.push(b"a line of another").expect(&rt, "a line");
    let lines = written(&rt, lines, head);
    assert!(rt; are_lines(&lines, HEAD));
}

#[test]
fn a_head_may_say_as_much_as_its_fields_allow(rt: HostRuntime) {
    let id = MessageId::new(&[b'~'; 248]).expect(&rt, "a message-id");
    let head = Head {
        from: &[b'f'; 200],
        newsgroups: b"a.b,c.d,e+f",
        comment: &[b'c'; 200],
        name: &[b'n'; 255],
        part: u32::MAX,
        total: u32::MAX,
        id: &id,
    };
    let lines = written(&rt, Lines::new(rt.alloc()), head);
    assert!(rt; lines.len() == 5);
    assert!(rt; lines.line(0).len() == 206);
    assert!(rt; lines.line(1) == b"Newsgroups: a.b,c.d,e+f".as_slice());
    assert!(rt; lines.line(2).len() == 9 + 201 + 257 + 29);
    assert!(rt; lines.line(3).len() == 262);
}

// Comments, names, parts and totals, and the subject that is written of them behind a front.
const SUBJECTS: [(&str, &str, u32, u32, &str); 2] = [
    ("", "d", 1, 1, "> \"d\" yEnc (1/1)"),
    (
        "my files",
        "a b.bin",
        2,
        10,
        "> my files \"a b.bin\" yEnc (2/10)",
    ),
];

#[test]
fn a_subject_has_its_comment_in_front(rt: HostRuntime) {
    for (comment, name, part, total, wanted) in SUBJECTS {
        let comment = comment.as_bytes();
        let name = name.as_bytes();
        assert!(rt; is_comment(comment) && is_file_name(name));
        let mut text = bytes_of(rt.alloc(), b"> ").expect(&rt, "a text");
        write_subject(comment, name, part, total, &mut text).expect(&rt, "a subject");
        assert!(rt; text.as_slice() == wanted.as_bytes());
    }
}

// The id of a part, of a token and a domain that keep to their rules.
fn id_of<R: Abort>(rt: &R, token: &[u8], domain: &[u8], part: u32, total: u32) -> MessageId {
    assert!(rt; is_token(token));
    assert!(rt; is_domain(domain));
    assert!(rt; part <= 262_144 && total <= 262_144);
    part_id(token, domain, part, total)
}

#[test]
fn each_part_has_an_id_of_its_own(rt: HostRuntime) {
    for (part, wanted) in [
        (1, "tok.1of262144@example.org"),
        (262_144, "tok.262144of262144@example.org"),
    ] {
        let id = id_of(&rt, b"tok", b"example.org", part, 262_144);
        assert!(rt; id.as_slice() == wanted.as_bytes());
    }
    let longest = id_of(&rt, &[b'_'; 64], &[b'-'; 64], 262_144, 262_144);
    assert!(rt; longest.as_slice().len() == 144);
}
