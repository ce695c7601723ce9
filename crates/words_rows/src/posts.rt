// What the words behind `post` ask for, and which of them is the first that is refused. The first of these words is the
// second of all.
use crate::fixtures::{words_of, words_with};
use command_words::{PostWords, read_post};
use std::process::Abort;

// The keys that have to be there, with a value of each.
const REQUIRED: [(&str, &str); 6] = [
    ("--input", "a/d"),
    ("--server", "news.example.org:119"),
    ("--from", "bob <bob@example.org>"),
    ("--group", "alt.binaries.test"),
    ("--token", "tok"),
    ("--domain", "example.org"),
];

// What `post` is asked for.
#[derive(Clone, Copy)]
struct Wanted<'a> {
    path: &'a str,
    server: &'a [u8],
    from: &'a [u8],
    newsgroups: &'a [u8],
    token: &'a [u8],
    domain: &'a [u8],
    name: &'a [u8],
    comment: &'a [u8],
    line: u16,
    part_size: u32,
    patience: u32,
    login: Option<&'a str>,
}

// Asserts that this is what `post` is asked for.
fn asks<R: Abort>(rt: &R, words: Vec<String>, wanted: Wanted<'_>) {
    match read_post(&words) {
        Ok(asked) => {
            assert!(rt; says(&asked, wanted));
            assert!(rt; counts(&asked, wanted));
        }
        Err(_) => rt.panic("the words are understood"),
    }
}

// Whether these are the texts that `post` is asked for.
fn says(asked: &PostWords<'_>, wanted: Wanted<'_>) -> bool {
    asked.path == wanted.path
        && asked.server == wanted.server
        && asked.from == wanted.from
        && asked.newsgroups == wanted.newsgroups
        && asked.token == wanted.token
        && asked.domain == wanted.domain
        && asked.name.as_slice() == wanted.name
        && asked.comment == wanted.comment
        && asked.login == wanted.login
}

// Whether these are the numbers that `post` is asked for.
fn counts(asked: &PostWords<'_>, wanted: Wanted<'_>) -> bool {
    asked.line == wanted.line
        && asked.part_size == wanted.part_size
        && asked.patience == wanted.patience
}

#[test]
fn takes_what_has_to_be_there(rt: HostRuntime) {
    let words = words_with(&rt, &REQUIRED, "--input", "a/d", "");
    let wanted = Wanted {
        path: "a/d",
        server: b"news.example.org:119",
        from: b"bob <bob@example.org>",
        newsgroups: b"alt.binaries.test",
        token: b"tok",
        domain: b"example.org",
        name: b"d",
        comment: b"",
        line: 128,
        part_size: 750_000,
        patience: 1500,
        login: None,
    };
    asks(&rt, words, wanted);
}

const EACH_KEY: [&str; 24] = [
    "--login",
    "logins",
    "--patience",
    "7",
    "--part-size",
    "9",
    "--line",
    "64",
    "--comment",
    "two words",
    "--name",
    "b c",
    "--domain",
    "d.e",
    "--token",
    "A_-9",
    "--group",
    "a,b.c",
    "--from",
    "f",
    "--server",
    "h:1",
    "--input",
    "a/",
];

#[test]
fn takes_each_key(rt: HostRuntime) {
    let wanted = Wanted {
        path: "a/",
        server: b"h:1",
        from: b"f",
        newsgroups: b"a,b.c",
        token: b"A_-9",
        domain: b"d.e",
        name: b"b c",
        comment: b"two words",
        line: 64,
        part_size: 9,
        patience: 7,
        login: Some("logins"),
    };
    asks(&rt, words_of(&rt, &EACH_KEY), wanted);
}

// Asserts which word is the first that is refused, if one is.
fn refuses<R: Abort>(rt: &R, words: Vec<String>, wanted: Option<u64>) {
    let number = match read_post(&words) {
        Ok(_) => None,
        Err(number) => Some(number),
    };
    assert!(rt; number == wanted, "{words:?}");
}

#[test]
fn a_key_that_has_to_be_there_is_missing(rt: HostRuntime) {
    for (key, _) in REQUIRED {
        let words = words_with(&rt, &REQUIRED, "--line", "64", key);
        refuses(&rt, words, Some(14));
    }
    refuses(&rt, words_of(&rt, &[]), Some(2));
    refuses(&rt, words_of(&rt, &["--input"]), Some(3));
}

#[test]
fn a_key_stands_once(rt: HostRuntime) {
    let rows: [(&[&str], Option<u64>); 4] = [
        (&["--server", "h:1", "--server", "h:1"], Some(4)),
        (&["--group", "a", "--group", "b"], Some(4)),
        (&["--part", "1"], Some(2)),
        (&["--from", "a", "--form", "file"], Some(4)),
    ];
    for (words, number) in rows {
        refuses(&rt, words_of(&rt, words), number);
    }
}

// Values of a key, with bars between them. The longest that are taken have 64 letters, or 200 in a text.
const DOMAINS_TAKEN: &str = "a|aaaaaaaaaaaaaaaaaaaaaaaaaaaaaaaaaaaaaaaaaaaaaaaaaaaaaaaaaaaaaaaa";

const LETTERS_64: &str = "aaaaaaaaaaaaaaaaaaaaaaaaaaaaaaaaaaaaaaaaaaaaaaaaaaaaaaaaaaaaaaaa";

const TOKENS_REFUSED: &str =
    "aaaaaaaaaaaaaaaaaaaaaaaaaaaaaaaaaaaaaaaaaaaaaaaaaaaaaaaaaaaaaaaaa||a.b";

const DOMAINS_REFUSED: &str =
    "aaaaaaaaaaaaaaaaaaaaaaaaaaaaaaaaaaaaaaaaaaaaaaaaaaaaaaaaaaaaaaaaa||a..b|a_b";

const FROM_TAKEN: &str =
    "a|aaaaaaaaaaaaaaaaaaaaaaaaaaaaaaaaaaaaaaaaaaaaaaaaaaaaaaaaaaaaaaaaaaaaaaaaaaaaaaaaaaaaaaaaaaaaaaaaaaaaaaaaaaaaaaaaaaaaaaaaaaaaaaaaaaaaaaaaaaaaaaaaaaaaaaaaaaaaaaaaaaaaaaaaaaaaaaaaaaaaaaaaaaaaaaaaaaaaaaaa";

const FROM_REFUSED: &str =
    "| a|a |a\u{e9}|aaaaaaaaaaaaaaaaaaaaaaaaaaaaaaaaaaaaaaaaaaaaaaaaaaaaaaaaaaaaaaaaaaaaaaaaaaaaaaaaaaaaaaaaaaaaaaaaaaaaaaaaaaaaaaaaaaaaaaaaaaaaaaaaaaaaaaaaaaaaaaaaaaaaaaaaaaaaaaaaaaaaaaaaaaaaaaaaaaaaaaaaaaaaaaaaaaaaaaaaa";

const COMMENTS_TAKEN: &str =
    "|a b|aaaaaaaaaaaaaaaaaaaaaaaaaaaaaaaaaaaaaaaaaaaaaaaaaaaaaaaaaaaaaaaaaaaaaaaaaaaaaaaaaaaaaaaaaaaaaaaaaaaaaaaaaaaaaaaaaaaaaaaaaaaaaaaaaaaaaaaaaaaaaaaaaaaaaaaaaaaaaaaaaaaaaaaaaaaaaaaaaaaaaaaaaaaaaaaaaaaaaaaa";

const COMMENTS_REFUSED: &str =
    " |aaaaaaaaaaaaaaaaaaaaaaaaaaaaaaaaaaaaaaaaaaaaaaaaaaaaaaaaaaaaaaaaaaaaaaaaaaaaaaaaaaaaaaaaaaaaaaaaaaaaaaaaaaaaaaaaaaaaaaaaaaaaaaaaaaaaaaaaaaaaaaaaaaaaaaaaaaaaaaaaaaaaaaaaaaaaaaaaaaaaaaaaaaaaaaaaaaaaaaaaa";

// Each key with the values that it takes and those that are refused. They stand in texts, since a longer table is dearer to prove.
const VALUES: [(&str, &str, &str); 12] = [
    ("--input", "d", "|d/"),
    ("--server", "127.0.0.1:1190", "h|h:0|h:0119|h:65536|h:119*4"),
    ("--from", FROM_TAKEN, FROM_REFUSED),
    (
        "--group",
        "a,b,c,d,e,f,g,h,i,j",
        "a,b,c,d,e,f,g,h,i,j,k||a,|a, b",
    ),
    ("--token", LETTERS_64, TOKENS_REFUSED),
    ("--domain", DOMAINS_TAKEN, DOMAINS_REFUSED),
    ("--name", "a b", ""),
    ("--comment", COMMENTS_TAKEN, COMMENTS_REFUSED),
    ("--line", "64", "998|064"),
    ("--part-size", "16777216", "16777217|0"),
    ("--patience", "1|100000", "100001|0|01"),
    ("--login", "l", ""),
];

#[test]
fn takes_values_by_their_rules(rt: HostRuntime) {
    for (key, taken, refused) in VALUES {
        for value in taken.split('|') {
            refuses(&rt, words_with(&rt, &REQUIRED, key, value, ""), None);
        }
        for value in refused.split('|') {
            refuses(&rt, words_with(&rt, &REQUIRED, key, value, ""), Some(3));
        }
    }
    refuses(&rt, words_with(&rt, &REQUIRED, "--part", "1", ""), Some(2));
}

#[test]
fn judges_the_default_name_where_no_name_is_given(rt: HostRuntime) {
    let words = words_with(&rt, &REQUIRED, "--name", "n", "--input");
    refuses(&rt, words, Some(14));
    let rows: [(&[&str], Option<u64>); 3] = [
        (&[], Some(3)),
        (&["--name"], Some(15)),
        (&["--name", "n"], None),
    ];
    for (more, number) in rows {
        let words = words_with(&rt, &REQUIRED, "--input", "d/", "");
        refuses(&rt, with_more(&rt, words, more), number);
    }
}

// Words, and these behind them.
fn with_more<R: Abort + AllocGlobal>(rt: &R, mut words: Vec<String>, more: &[&str]) -> Vec<String> {
    for word in more {
        let word = String::from_str(rt.alloc(), word).expect(rt, "a word");
        words.push(word).expect(rt, "words");
    }
    words
}
