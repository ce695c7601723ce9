// The words of the command `index`.
ghost use Rattle.std.specs.Prelude.{◌≡◌, true, map, string_bytes, IfOk};
ghost use Rattle.command_words.specs.Asked.{key_model, paired};
ghost use Rattle.command_words.specs.Index.{IsIndexAllowed, ReadsIndex, article_of, index_found, index_keys, index_of, is_first, is_group, is_last, is_range, number_before};
ghost use Rattle.command_words.specs.Keys.{text_of};

use crate::keys::{Key, Rule, bytes_of, check_pairs, has_all, number_in, number_or, value_in};
use crate::words::{PATIENCE, PATIENCE_RULE};
use limits::{MOST_ARTICLE, MOST_PATIENCE};
use nntp_lines::GroupName;

// How far above the first article the last one is.
const MOST_DISTANCE: u64 = 9_999_999;

const REQUIRED: [&str; 4] = ["--server", "--group", "--first", "--last"];

/// What `index` is asked for.
#[derive(Drop)]
pub struct IndexWords<'a> {
    /// The address of the news server, `HOST:PORT`.
    pub server: &'a [u8],
    /// The newsgroup.
    pub group: GroupName,
    /// The number of the first article, from 1.
    pub first: u64,
    /// The number of the last one, up to `MOST_ARTICLE`. It is at least the first, and at most 9,999,999 above it.
    pub last: u64,
    /// After how many receives that got nothing the server is given up, 1 to 100,000.
    pub patience: u32,
    /// The path of the login file, if there is one.
    pub login: Option<&'a str>,
}

// The keys of `index`. Of the first and the last number the one that comes later in the words is judged by the other.
fn index_keys(words: &[String]) -> [Key; 6]
    ensures { map key_model result ≡ index_keys (map string_bytes words.now) }
{
    [
        Key {
            word: "--server",
            rule: Rule::Server,
        },
        Key {
            word: "--group",
            rule: Rule::Group,
        },
        Key {
            word: "--first",
            rule: Rule::First {
                last: number_before(words, "--last", "--first"),
            },
        },
        Key {
            word: "--last",
            rule: Rule::Last {
                first: number_before(words, "--first", "--last"),
            },
        },
        Key {
            word: "--patience",
            rule: PATIENCE_RULE,
        },
        Key {
            word: "--login",
            rule: Rule::Path,
        },
    ]
}

/// What the words behind `index` ask for. The error is the number of the first word that is refused, where that behind the
/// command is the second; where a required key is missing, it is the number behind the last word.
pub fn read_index(words: &[String]) -> Result<IndexWords<'_>, u64>
    ensures words { ReadsIndex (index_of (map string_bytes words.now)) result }
    ensures allowed { IfOk result (λ asked. IsIndexAllowed (index_found asked)) }
{
    let keys = index_keys(words);
    if let Err(number) = check_pairs(&keys, words) {
        return Err(number);
    }
    if !has_all(&REQUIRED, words) {
        return Err(words.len() as u64 + 2);
    }
    Ok(IndexWords {
        server: bytes_of(words, "--server"),
        group: group_of(bytes_of(words, "--group")),
        first: number_or(words, "--first", 1, MOST_ARTICLE, 1),
        last: number_or(words, "--last", 1, MOST_ARTICLE, 1),
        patience: number_or(words, "--patience", 1, MOST_PATIENCE as u64, PATIENCE) as u32,
        login: value_in(words, "--login"),
    })
}

// A newsgroup whose name was judged.
fn group_of(name: &[u8]) -> GroupName
    requires { is_group name.now ≡ true }
    ensures { result ≡ name.now }
{
    match GroupName::new(name) {
        Some(group) => group,
        None => unreachable!(),
    }
}

// ---- the range

// The number that a key gives before another key comes.
fn number_before(words: &[String], key: &str, other: &str) -> Option<u64>
    ensures { result ≡ number_before key.now other.now (map string_bytes words.now) }
{
    let mut at = 0;
    while at + 1 < words.len() {
        let word = words[at].as_str();
        if key == word {
            return article_in(words[at + 1].as_str());
        }
        if other == word {
            return None;
        }
        at += 2;
    }
    None
}

/// Whether a value is the number of a first article, by that of the last one where it is known.
pub(crate) fn is_first(last: Option<u64>, value: &str) -> bool
    ensures { result ≡ is_first last value.now }
{
    match (article_in(value), last) {
        (None, _) => false,
        (Some(_), None) => true,
        (Some(first), Some(last)) => is_range(first, last),
    }
}

/// Whether a value is the number of a last article, by that of the first one where it is known.
pub(crate) fn is_last(first: Option<u64>, value: &str) -> bool
    ensures { result ≡ is_last first value.now }
{
    match (first, article_in(value)) {
        (_, None) => false,
        (None, Some(_)) => true,
        (Some(first), Some(last)) => is_range(first, last),
    }
}

// Whether a range from one number to another may be asked for.
fn is_range(first: u64, last: u64) -> bool
    ensures { result ≡ is_range first last }
{
    first <= last && last - first <= MOST_DISTANCE
}

// The number of an article that a value is.
fn article_in(value: &str) -> Option<u64>
    ensures { result ≡ article_of value.now }
{
    number_in(value.as_bytes(), 1, MOST_ARTICLE)
}
