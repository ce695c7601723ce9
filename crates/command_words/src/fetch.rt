// The words of the command `fetch`.
ghost use Rattle.std.specs.Prelude.{◌≡◌, map, string_bytes, IfOk};
ghost use Rattle.command_words.specs.Asked.{key_model};
ghost use Rattle.command_words.specs.Fetch.{IsFetchAllowed, ReadsFetch, fetch_found, fetch_keys, fetch_of};

use crate::keys::{Key, Rule, check_pairs, has_all, number_or, text_of, value_in};
use crate::servers::{Servers, servers_in};
use crate::words::{PATIENCE, PATIENCE_RULE};
use limits::{MOST_DEPTH, MOST_PATIENCE};

// How many requests a link may have without an answer where the words don't say it.
const DEPTH: u64 = 8;

const REQUIRED: [&str; 2] = ["--nzb", "--server"];

/// What `fetch` is asked for.
#[derive(Drop)]
pub struct FetchWords<'a> {
    /// The path of the NZB text.
    pub path: &'a str,
    /// The news servers, 1 to `MOST_SERVERS`, with at most `MOST_LINKS` links together.
    pub servers: Servers<'a>,
    /// How many requests a link may have without an answer, 1 to `MOST_DEPTH`.
    pub depth: u32,
    /// After how many receives that got nothing a link is given up, 1 to `MOST_PATIENCE`.
    pub patience: u32,
    /// The path of the login file, if there is one.
    pub login: Option<&'a str>,
}

// The keys of `fetch`.
fn fetch_keys() -> [Key; 5]
    ensures { map key_model result ≡ fetch_keys }
{
    [
        Key {
            word: "--nzb",
            rule: Rule::Path,
        },
        Key {
            word: "--server",
            rule: Rule::FetchServer,
        },
        Key {
            word: "--depth",
            rule: Rule::Number {
                least: 1,
                most: MOST_DEPTH as u64,
            },
        },
        Key {
            word: "--patience",
            rule: PATIENCE_RULE,
        },
        Key {
            word: "--login",
            rule: Rule::Path,
        },
    ]
}

/// What the words behind `fetch` ask for. The error is the number of the first word that is refused, where that behind the
/// command is the second; where a required key is missing, it is the number behind the last word. One server more than
/// `MOST_SERVERS` is a repeated key, and a server is refused with whose links there are more than `MOST_LINKS`.
pub fn read_fetch(words: &[String]) -> Result<FetchWords<'_>, u64>
    ensures words { ReadsFetch (fetch_of (map string_bytes words.now)) result }
    ensures allowed { IfOk result (λ asked. IsFetchAllowed (fetch_found asked)) }
{
    let keys = fetch_keys();
    if let Err(number) = check_pairs(&keys, words) {
        return Err(number);
    }
    if !has_all(&REQUIRED, words) {
        return Err(words.len() as u64 + 2);
    }
    Ok(FetchWords {
        path: text_of(words, "--nzb"),
        servers: servers_in(words, "--server"),
        depth: number_or(words, "--depth", 1, MOST_DEPTH as u64, DEPTH) as u32,
        patience: number_or(words, "--patience", 1, MOST_PATIENCE as u64, PATIENCE) as u32,
        login: value_in(words, "--login"),
    })
}
