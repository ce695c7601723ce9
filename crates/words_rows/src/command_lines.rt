// Which word of a command line is the first that is refused.
use crate::fixtures::words_of;
use command_words::refused_word;
use std::process::Abort;

// Names with bars between them. The longest that is taken has 255 characters, and the first that is refused one more.
const NAMES_TAKEN: &str =
    "a|a b~|aaaaaaaaaaaaaaaaaaaaaaaaaaaaaaaaaaaaaaaaaaaaaaaaaaaaaaaaaaaaaaaaaaaaaaaaaaaaaaaaaaaaaaaaaaaaaaaaaaaaaaaaaaaaaaaaaaaaaaaaaaaaaaaaaaaaaaaaaaaaaaaaaaaaaaaaaaaaaaaaaaaaaaaaaaaaaaaaaaaaaaaaaaaaaaaaaaaaaaaaaaaaaaaaaaaaaaaaaaaaaaaaaaaaaaaaaaaaaaaaaaaaaaaaaaaaaaa";

const NAMES_REFUSED: &str =
    "aaaaaaaaaaaaaaaaaaaaaaaaaaaaaaaaaaaaaaaaaaaaaaaaaaaaaaaaaaaaaaaaaaaaaaaaaaaaaaaaaaaaaaaaaaaaaaaaaaaaaaaaaaaaaaaaaaaaaaaaaaaaaaaaaaaaaaaaaaaaaaaaaaaaaaaaaaaaaaaaaaaaaaaaaaaaaaaaaaaaaaaaaaaaaaaaaaaaaaaaaaaaaaaaaaaaaaaaaaaaaaaaaaaaaaaaaaaaaaaaaaaaaaaaaaaaaaaa|| a|a |a\tb|\u{e9}";

// Keys with the values that they take and those that are refused, with bars between them.
const VALUES: [(&str, &str, &str); 4] = [
    ("--name", NAMES_TAKEN, NAMES_REFUSED),
    ("--line", "64|997", "0128|00128|63|998||+64"),
    ("--part-size", "1|16777216", "0|16777217"),
    (
        "--part",
        "4294967295|10",
        "0|01|00|4294967296|18446744073709551617",
    ),
];

// Asserts which word is the first that is refused, if one is.
fn refuses<R: Abort + AllocGlobal>(rt: &R, words: &[&str], wanted: Option<u64>) {
    let list = words_of(rt, words);
    assert!(rt; refused_word(&list) == wanted, "{words:?}");
}

#[test]
fn knows_each_command(rt: HostRuntime) {
    let rows: [(&[&str], Option<u64>); 19] = [
        (&[], Some(1)),
        (&["verify"], Some(1)),
        (&["encode"], Some(2)),
        (&["encode", "--file", "d"], Some(2)),
        (&["encode", "--input"], Some(3)),
        (&["encode", "--line", "64"], Some(4)),
        (&["decode"], Some(2)),
        (&["decode", "--input"], Some(3)),
        (&["decode", "--input", ""], Some(3)),
        (&["decode", "--input", "d/"], None),
        (&["decode", "--input", "d", "--form", "wire"], None),
        (&["decode", "--form", "file", "--input", "d"], None),
        (&["decode", "--input", "d", "--form", "nzb"], Some(5)),
        (&["decode", "--form", "wire"], Some(4)),
        (&["check"], Some(2)),
        (&["check", "--nzb"], Some(3)),
        (&["check", "--nzb", ""], Some(3)),
        (&["check", "--nzb", "a"], None),
        (&["check", "--nzb", "a", "--input", "a"], Some(4)),
    ];
    for (words, number) in rows {
        refuses(&rt, words, number);
    }
}

#[test]
fn takes_each_key_once_in_any_order(rt: HostRuntime) {
    let rows: [(&[&str], Option<u64>); 6] = [
        (
            &[
                "encode",
                "--part",
                "1",
                "--part-size",
                "9",
                "--line",
                "64",
                "--name",
                "n",
                "--input",
                "d",
            ],
            None,
        ),
        (&["encode", "--input", "d", "--input", "d"], Some(4)),
        (
            &["encode", "--input", "d", "--line", "64", "--line", "65"],
            Some(6),
        ),
        (&["encode", "--input", "d", "--line"], Some(5)),
        (&["encode", "--input", "d", "--form", "wire"], Some(4)),
        (&["decode", "--input", "d", "--line", "64"], Some(4)),
    ];
    for (words, number) in rows {
        refuses(&rt, words, number);
    }
}

#[test]
fn judges_the_default_name_where_no_name_is_given(rt: HostRuntime) {
    let rows: [(&[&str], Option<u64>); 8] = [
        (&["encode", "--input", ""], Some(3)),
        (&["encode", "--input", "d/"], Some(3)),
        (&["encode", "--input", "a/ b"], Some(3)),
        (&["encode", "--input", "a/\u{e9}"], Some(3)),
        (&["encode", "--input", "", "--name", "n"], Some(3)),
        (&["encode", "--input", "d/", "--name", "n"], None),
        // The name is given, but its value is missing.
        (&["encode", "--input", "d/", "--name"], Some(5)),
        // The name stands where a value stands, so none is given.
        (&["encode", "--input", "d/", "--line", "--name"], Some(3)),
    ];
    for (words, number) in rows {
        refuses(&rt, words, number);
    }
}

#[test]
fn takes_values_within_their_limits(rt: HostRuntime) {
    for (key, taken, refused) in VALUES {
        for value in taken.split('|') {
            refuses(&rt, &["encode", "--input", "d", key, value], None);
        }
        for value in refused.split('|') {
            refuses(&rt, &["encode", "--input", "d", key, value], Some(5));
        }
    }
}
