// What the words behind `index` ask for, and which of them is the first that is refused. The first of these words is the
// second of all.
use crate::fixtures::{words_of, words_with};
use command_words::{Command, IndexWords, read_index, read_words, refused_word};
use std::process::Abort;

// The keys that have to be there, with a value of each.
const REQUIRED: [(&str, &str); 4] = [
    ("--server", "news.example.org:119"),
    ("--group", "alt.binaries.test"),
    ("--first", "5"),
    ("--last", "9"),
];

// What `index` is asked for.
#[derive(Clone, Copy)]
struct Wanted<'a> {
    server: &'a [u8],
    group: &'a [u8],
    first: u64,
    last: u64,
    patience: u32,
    login: Option<&'a str>,
}

// Whether this is what `index` is asked for.
fn is_asked(asked: &IndexWords<'_>, wanted: Wanted<'_>) -> bool {
    asked.server == wanted.server
        && asked.group.as_slice() == wanted.group
        && asked.first == wanted.first
        && asked.last == wanted.last
        && asked.patience == wanted.patience
        && asked.login == wanted.login
}

#[test]
fn takes_what_has_to_be_there(rt: HostRuntime) {
    let words = words_with(&rt, &REQUIRED, "--last", "9", "");
    let wanted = Wanted {
        server: b"news.example.org:119",
        group: b"alt.binaries.test",
        first: 5,
        last: 9,
        patience: 1500,
        login: None,
    };
    match read_index(&words) {
        Ok(asked) => assert!(rt; is_asked(&asked, wanted)),
        Err(_) => rt.panic("the words are understood"),
    }
}

const EACH_KEY: [&str; 13] = [
    "index",
    "--login",
    "logins",
    "--patience",
    "7",
    "--last",
    "9999999999999999",
    "--first",
    "9999999990000000",
    "--group",
    "a+b-c_d.e",
    "--server",
    "h:1",
];

#[test]
fn takes_each_key(rt: HostRuntime) {
    let words = words_of(&rt, &EACH_KEY);
    let wanted = Wanted {
        server: b"h:1",
        group: b"a+b-c_d.e",
        first: 9_999_999_990_000_000,
        last: 9_999_999_999_999_999,
        patience: 7,
        login: Some("logins"),
    };
    match read_words(&words) {
        Ok(Command::Index(asked)) => assert!(rt; is_asked(&asked, wanted)),
        _ => rt.panic("the words are understood"),
    }
}

// Asserts which word is the first that is refused, if one is.
fn refuses<R: Abort>(rt: &R, words: Vec<String>, wanted: Option<u64>) {
    let number = match read_index(&words) {
        Ok(_) => None,
        Err(number) => Some(number),
    };
    assert!(rt; number == wanted, "{words:?}");
}

#[test]
fn a_key_that_has_to_be_there_is_missing(rt: HostRuntime) {
    for (key, _) in REQUIRED {
        let words = words_with(&rt, &REQUIRED, "--patience", "7", key);
        refuses(&rt, words, Some(10));
    }
    refuses(&rt, words_of(&rt, &[]), Some(2));
    refuses(&rt, words_of(&rt, &["--first"]), Some(3));
    let words = words_of(&rt, &["index"]);
    assert!(rt; refused_word(&words) == Some(2));
}

#[test]
fn the_later_of_two_numbers_is_refused(rt: HostRuntime) {
    let rows: [(&[&str], Option<u64>); 12] = [
        (&["--first", "5", "--last", "5"], Some(6)),
        (&["--first", "5", "--last", "4"], Some(5)),
        (&["--last", "4", "--first", "5"], Some(5)),
        (&["--first", "1", "--last", "10000000"], Some(6)),
        (&["--first", "1", "--last", "10000001"], Some(5)),
        (&["--last", "10000000", "--first", "1"], Some(6)),
        (&["--last", "10000001", "--first", "1"], Some(5)),
        // An earlier word is refused first, and a later one isn't reached.
        (&["--first", "5", "--part", "1", "--last", "4"], Some(4)),
        (&["--first", "5", "--last", "4", "--part", "1"], Some(5)),
        (&["--first", "05", "--last", "4"], Some(3)),
        // A repeated key is refused before its value, and a missing value isn't judged.
        (&["--first", "5", "--first", "3", "--last", "4"], Some(4)),
        (&["--first", "5", "--last"], Some(5)),
    ];
    for (words, number) in rows {
        refuses(&rt, words_of(&rt, words), number);
    }
}

// Keys with values, with bars between them, and the first word that is refused: the ninth is the other number of the two, 5 as
// the first or 9 as the last.
const VALUES: [(&str, &str, Option<u64>); 12] = [
    ("--server", "127.0.0.1:1190", None),
    ("--server", "h", Some(3)),
    ("--group", "a", None),
    ("--group", "a,b||a b", Some(3)),
    ("--first", "1|9", None),
    (
        "--first",
        "0|05||+5|10000000000000000|18446744073709551621",
        Some(3),
    ),
    ("--first", "10", Some(9)),
    ("--last", "5|10000004", None),
    ("--last", "09", Some(3)),
    ("--last", "4|10000005", Some(9)),
    ("--patience", "1|100000", None),
    ("--patience", "0|100001", Some(3)),
];

#[test]
fn takes_values_by_their_rules(rt: HostRuntime) {
    for (key, values, number) in VALUES {
        for value in values.split('|') {
            refuses(&rt, words_with(&rt, &REQUIRED, key, value, ""), number);
        }
    }
    refuses(&rt, words_with(&rt, &REQUIRED, "--login", "l", ""), None);
    refuses(&rt, words_with(&rt, &REQUIRED, "--login", "", ""), Some(3));
    refuses(&rt, words_with(&rt, &REQUIRED, "--input", "d", ""), Some(2));
}
