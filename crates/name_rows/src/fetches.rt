// What the words behind `fetch` ask for, and which of them is the first that is refused. The first of these words is the
// second of all.
use command_words::{ServerWords, read_fetch, refused_word};
use lists::Memory;
use std::alloc::Global;
use std::process::Abort;

// The words of a command line.
fn words_of<R: Abort + AllocGlobal>(rt: &R, words: &[&str]) -> Vec<String> {
    row_fixtures::words_of(rt.alloc(), words).expect(rt, "words")
}

// Asserts which word is the first that is refused, if one is.
fn refuses<R: Abort>(rt: &R, words: Vec<String>, wanted: Option<u64>) {
    let number = match read_fetch(&words) {
        Ok(_) => None,
        Err(number) => Some(number),
    };
    assert!(rt; number == wanted, "{words:?}");
}

#[test]
fn takes_what_has_to_be_there(rt: HostRuntime) {
    let words = words_of(&rt, &["--server", "one:119", "--nzb", "a.nzb"]);
    match read_fetch(&words) {
        Ok(asked) => {
            assert!(rt; asked.path == "a.nzb");
            assert!(rt; asked.depth == 8);
            assert!(rt; asked.patience == 1500);
            assert!(rt; asked.login == None);
            assert!(rt; are_servers(asked.servers.as_slice(), &[(b"one:119", 1, 0)]));
        }
        Err(_) => rt.panic("the words are understood"),
    }
}

// Whether these are the servers, by address, links and level.
fn are_servers(servers: &[ServerWords<'_>], wanted: &[(&[u8], u32, u8)]) -> bool {
    if servers.len() != wanted.len() {
        return false;
    }
    for (at, server) in servers.iter().enumerate() {
        let (address, links, level) = wanted[at];
        if server.address != address || server.links != links || server.level != level {
            return false;
        }
    }
    true
}

const EACH_KEY: [&str; 14] = [
    "--server",
    "one:119*4",
    "--login",
    "logins",
    "--server",
    "two:65535*60@9",
    "--patience",
    "7",
    "--nzb",
    "a.nzb",
    "--depth",
    "32",
    "--depth",
    "1",
];

#[test]
fn takes_each_key(rt: HostRuntime) {
    let words = words_of(&rt, &EACH_KEY[..12]);
    match read_fetch(&words) {
        Ok(asked) => {
            let wanted: [(&[u8], u32, u8); 2] = [(b"one:119", 4, 0), (b"two:65535", 60, 9)];
            assert!(rt; are_servers(asked.servers.as_slice(), &wanted));
            assert!(rt; asked.depth == 32);
            assert!(rt; asked.patience == 7);
            assert!(rt; asked.login == Some("logins"));
        }
        Err(_) => rt.panic("the words are understood"),
    }
    refuses(&rt, words_of(&rt, &EACH_KEY), Some(14));
}

#[test]
fn finds_the_first_word_that_is_refused(rt: HostRuntime) {
    let rows: [(&[&str], Option<u64>); 12] = [
        (&[], Some(2)),
        (&["--nzb", "a.nzb"], Some(4)),
        (&["--server", "one:119"], Some(4)),
        (&["--nzb"], Some(3)),
        (&["--nzb", "a.nzb", "--server"], Some(5)),
        (&["--nzb", "a.nzb", "--server", "one:119@x"], Some(5)),
        (&["--nzb", "a.nzb", "--nzb", "b.nzb"], Some(4)),
        (&["--nzb", ""], Some(3)),
        (&["--input", "d"], Some(2)),
        (
            &[
                "--server",
                "one:119*64",
                "--nzb",
                "a",
                "--server",
                "two:119",
            ],
            Some(7),
        ),
        (
            &[
                "--server",
                "one:119*63",
                "--nzb",
                "a",
                "--server",
                "two:119",
            ],
            None,
        ),
        (
            &["--server", "one:119", "--server", "one:119", "--nzb", "a"],
            None,
        ),
    ];
    for (words, number) in rows {
        refuses(&rt, words_of(&rt, words), number);
    }
}

#[test]
fn takes_values_by_their_rules(rt: HostRuntime) {
    let rows: [(&str, &str, bool); 33] = [
        ("--server", "h:1", true),
        ("--server", "h:1*1", true),
        ("--server", "h:1*61", true),
        ("--server", "h:1*61@0", true),
        ("--server", "h:1@9", true),
        ("--server", "h:1*62", false),
        ("--server", "h:1*65", false),
        ("--server", "h:1*0", false),
        ("--server", "h:1*01", false),
        ("--server", "h:1*", false),
        ("--server", "h:1*+1", false),
        ("--server", "h:1*1*1", false),
        ("--server", "h:1@", false),
        ("--server", "h:1@10", false),
        ("--server", "h:1@00", false),
        ("--server", "h:1@1@1", false),
        ("--server", "h:1@1*1", false),
        ("--server", "h:1*18446744073709551617", false),
        ("--server", "h", false),
        ("--server", "*1", false),
        ("--server", "", false),
        ("--server", "h:0", false),
        ("--server", "h:01", false),
        ("--server", "h:65536", false),
        ("--depth", "1", true),
        ("--depth", "32", true),
        ("--depth", "0", false),
        ("--depth", "33", false),
        ("--depth", "08", false),
        ("--patience", "100000", true),
        ("--patience", "100001", false),
        ("--login", "l", true),
        ("--login", "", false),
    ];
    for (key, value, is_taken) in rows {
        let wanted = if is_taken { None } else { Some(7) };
        let words = words_of(&rt, &["--nzb", "a", "--server", "o:1*3", key, value]);
        refuses(&rt, words, wanted);
    }
}

// Words that name so many servers behind the path.
fn with_servers(alloc: Global, times: u32, last: &str) -> Result<Vec<String>, Memory> {
    let mut words = row_fixtures::words_of(alloc, &["--nzb", "a.nzb"])?;
    for _ in 0..times {
        words.push(String::from_str(alloc, "--server")?)?;
        words.push(String::from_str(alloc, "h:119")?)?;
    }
    words.push(String::from_str(alloc, last)?)?;
    Ok(words)
}

#[test]
fn the_seventeenth_server_is_a_repeated_key(rt: HostRuntime) {
    let words = with_servers(rt.alloc(), 15, "--server").expect(&rt, "words");
    refuses(&rt, words, Some(35));
    let words = with_servers(rt.alloc(), 16, "--server").expect(&rt, "words");
    refuses(&rt, words, Some(36));
    let words = with_servers(rt.alloc(), 17, "--depth").expect(&rt, "words");
    refuses(&rt, words, Some(36));
}

#[test]
fn fetch_is_no_command_yet(rt: HostRuntime) {
    let words = words_of(&rt, &["fetch", "--nzb", "a.nzb", "--server", "one:119"]);
    assert!(rt; refused_word(&words) == Some(1));
}
