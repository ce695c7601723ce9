// Pairs of a key and its value on the command line. A command's keys are a table; the words are judged by it from the left.
ghost use Rattle.std.specs.Prelude.{◌≡◌, ◌≤◌, ◌<◌, IfSome, length, map, string_bytes};
ghost use Rattle.std.specs.Option.{option_and_then, option_copied, option_map, unwrap_or};
ghost use Rattle.std.specs.List.{list_all};
ghost use Rattle.command_words.specs.Keys.{file_name as file_name_of, form_of, has_all, has_leading_zero, is_header_name, is_printable, key_of, number_in, stands_as_key, text_of, value_of, values_of};
ghost use Rattle.command_words.specs.declared.keys.Form.TheVariants.{File};
ghost use Rattle.command_words.specs.Asked.{key_model, most_times, paired, takes_by, ChecksPair, ChecksPairs};
ghost use Rattle.limits.specs.declared.TheConstants.{MOST_SERVERS};

use crate::index::{is_first, is_last};
use crate::servers::is_next_server;
use article_head::{is_comment, is_domain, is_from, is_newsgroups, is_token};
use limits::MOST_SERVERS;
use nntp_lines::GroupName;
use numbers::read_dec;
use server_logins::is_server;

/// Which values a key takes.
#[derive(Clone, Copy, Debug, PartialEq, Eq)]
pub(crate) enum Rule {
    /// A path, not empty.
    Path,
    /// A path whose part behind the last slash can be the name in a header.
    NamedPath,
    /// 1 to 255 printable characters of ASCII, with no space at either end.
    HeaderName,
    /// A number in decimal digits without leading zeros, within these limits.
    Number { least: u64, most: u64 },
    /// How a body was saved: `file` or `wire`.
    Form,
    /// Where a news server is: `HOST:PORT`.
    Server,
    /// A news server that a fetch asks: `HOST:PORT`, then `*` and how many links, then `@` and its level. It may stand `MOST_SERVERS`
    /// times, with at most `MOST_LINKS` links together.
    FetchServer,
    /// Who posts an article.
    From,
    /// Names of newsgroups with commas between them.
    Newsgroups,
    /// What a subject begins with.
    Comment,
    /// What message-ids begin with.
    Token,
    /// The domain in message-ids.
    Domain,
    /// The name of one newsgroup.
    Group,
    /// The number of the first article, by that of the last one where it stands before it.
    First { last: Option<u64> },
    /// The number of the last article, by that of the first one where it stands before it.
    Last { first: Option<u64> },
}

/// How a body was saved.
#[derive(Clone, Copy, Debug, PartialEq, Eq)]
pub enum Form {
    /// As the lines of a file.
    File,
    /// As the reply of a news server, off the wire.
    Wire,
}

/// A key that a command knows.
#[derive(Clone, Copy, Debug)]
pub(crate) struct Key {
    /// The word, with its dashes.
    pub(crate) word: &'static str,
    /// The values that it takes.
    pub(crate) rule: Rule,
}

/// Judges the words behind a command, of which the first is the second of all, by the command's keys. The number of the
/// first refused word is the error; one behind the last word says that a value is missing.
pub(crate) fn check_pairs(keys: &[Key], words: &[String]) -> Result<(), u64>
    ensures { ChecksPairs (map key_model keys.now) (map string_bytes words.now) result }
{
    let mut at = 0;
    while at < words.len() {
        if let Err(number) = check_pair(keys, words, at) {
            return Err(number);
        }
        at += 2;
    }
    Ok(())
}

// Judges the pair at an index, behind other pairs.
fn check_pair(keys: &[Key], words: &[String], at: usize) -> Result<(), u64>
    requires { at < length words.now }
    ensures { ChecksPair (map key_model keys.now) (map string_bytes words.now) at result }
{
    let number = at as u64 + 2;
    let word = words[at].as_str();
    let Some(key) = find_key(keys, word) else {
        return Err(number);
    };
    let before = &words[..at];
    if times_in(before, word) >= most_times(key.rule) {
        return Err(number);
    }
    if at + 1 == words.len() {
        return Err(number + 1);
    }
    if !takes(key.rule, before, word, words[at + 1].as_str()) {
        return Err(number + 1);
    }
    Ok(())
}

// The key that a word is.
fn find_key(keys: &[Key], word: &str) -> Option<Key>
    ensures { option_map key_model result ≡ key_of (map key_model keys.now) word.now }
{
    for key in keys {
        if word == key.word {
            return Some(*key);
        }
    }
    None
}

// How often a key of a rule may stand.
fn most_times(rule: Rule) -> usize
    ensures times { result ≡ most_times rule }
    ensures most { result ≤ MOST_SERVERS }
{
    match rule {
        Rule::FetchServer => MOST_SERVERS,
        _ => 1,
    }
}

// Whether a value keeps to the rule of a key, beside the values that the key has in the words before it.
#[tactic(auto, using(crate::proofs::PostLaws::same_from, crate::proofs::PostLaws::same_comment, crate::proofs::PostLaws::same_token))]
fn takes(rule: Rule, before: &[String], key: &str, value: &str) -> bool
    requires { length (values_of key.now (paired (map string_bytes before.now))) ≤ MOST_SERVERS }
    ensures { result ≡ takes_by rule (values_of key.now (paired (map string_bytes before.now))) value.now }
{
    let bytes = value.as_bytes();
    match rule {
        Rule::Path => !value.is_empty(),
        Rule::NamedPath => is_header_name(file_name(bytes)),
        Rule::HeaderName => is_header_name(bytes),
        Rule::Number { least, most } => number_in(bytes, least, most).is_some(),
        Rule::Form => form_in(value).is_some(),
        Rule::Server => is_server(bytes),
        Rule::FetchServer => is_next_server(before, key, bytes),
        Rule::From => is_from(bytes),
        Rule::Newsgroups => is_newsgroups(bytes),
        Rule::Comment => is_comment(bytes),
        Rule::Token => is_token(bytes),
        Rule::Domain => is_domain(bytes),
        Rule::Group => GroupName::new(bytes).is_some(),
        Rule::First { last } => is_first(last, value),
        Rule::Last { first } => is_last(first, value),
    }
}

/// The value of a key in the pairs that these words are.
pub(crate) fn value_in<'a>(words: &'a [String], key: &str) -> Option<&'a str>
    ensures { option_copied result ≡ value_of key.now (paired (map string_bytes words.now)) }
{
    let mut at = 0;
    while at + 1 < words.len() {
        if key == words[at].as_str() {
            return Some(words[at + 1].as_str());
        }
        at += 2;
    }
    None
}

// How often a key stands in the pairs that these words are.
fn times_in(words: &[String], key: &str) -> usize
    ensures { result ≡ length (values_of key.now (paired (map string_bytes words.now))) }
{
    let mut times = 0;
    let mut at = 0;
    while at + 1 < words.len() {
        if key == words[at].as_str() {
            times += 1;
        }
        at += 2;
    }
    times
}

/// Whether each of these keys has a value in the pairs that these words are.
pub(crate) fn has_all(keys: &[&str], words: &[String]) -> bool
    ensures { result ≡ has_all (map (λ key. key.now) keys.now) (paired (map string_bytes words.now)) }
{
    for key in keys {
        if value_in(words, key).is_none() {
            return false;
        }
    }
    true
}

/// The value of a key in the pairs that these words are, or an empty text where it has none.
pub(crate) fn text_of<'a>(words: &'a [String], key: &str) -> &'a str
    ensures { result.now ≡ text_of key.now (paired (map string_bytes words.now)) }
{
    match value_in(words, key) {
        Some(value) => value,
        None => "",
    }
}

/// The bytes of that value.
pub(crate) fn bytes_of<'a>(words: &'a [String], key: &str) -> &'a [u8]
    ensures { result.now ≡ text_of key.now (paired (map string_bytes words.now)) }
{
    text_of(words, key).as_bytes()
}

/// The number that is the value of a key in the pairs that these words are, or the default where it has none in the limits.
pub(crate) fn number_or(words: &[String], key: &str, least: u64, most: u64, default: u64) -> u64
    requires least { least ≤ default }
    requires most { default ≤ most }
    ensures least { least ≤ result }
    ensures most { result ≤ most }
    ensures value { result ≡ unwrap_or (option_and_then (number_in least most) (value_of key.now (paired (map string_bytes words.now)))) default }
{
    match value_in(words, key) {
        Some(value) => match number_in(value.as_bytes(), least, most) {
            Some(number) => number,
            None => default,
        },
        None => default,
    }
}

/// The number that a value is, within limits. No zero stands in front of other digits.
pub(crate) fn number_in(value: &[u8], least: u64, most: u64) -> Option<u64>
    ensures value { result ≡ number_in least most value.now }
    ensures least { IfSome result (λ number. least ≤ number) }
    ensures most { IfSome result (λ number. number ≤ most) }
{
    if has_leading_zero(value) {
        return None;
    }
    match read_dec(value, most) {
        Some(number) if number >= least => Some(number),
        _ => None,
    }
}

fn has_leading_zero(value: &[u8]) -> bool
    ensures { result ≡ has_leading_zero value.now }
{
    value.len() > 1 && value[0] == b'0'
}

/// The form that is the value of a key in the pairs that these words are, or that of a file.
pub(crate) fn form_or_file(words: &[String], key: &str) -> Form
    ensures { result ≡ unwrap_or (option_and_then form_of (value_of key.now (paired (map string_bytes words.now)))) File }
{
    match value_in(words, key) {
        Some(value) => form_in(value).unwrap_or(Form::File),
        None => Form::File,
    }
}

fn form_in(value: &str) -> Option<Form>
    ensures { result ≡ form_of value.now }
{
    match value {
        "file" => Some(Form::File),
        "wire" => Some(Form::Wire),
        _ => None,
    }
}

/// Whether a word stands where a key stands.
pub(crate) fn has_key(words: &[String], key: &str) -> bool
    ensures { result ≡ stands_as_key key.now (map string_bytes words.now) }
{
    let mut at = 0;
    while at < words.len() {
        if key == words[at].as_str() {
            return true;
        }
        at += 2;
    }
    false
}

/// The bytes behind the last slash.
pub(crate) fn file_name(path: &[u8]) -> &[u8]
    ensures { result.now ≡ file_name_of path.now }
{
    let mut name = path;
    let mut rest = path;
    while let [byte, after @ ..] = rest {
        if *byte == b'/' {
            name = after;
        }
        rest = after;
    }
    name
}

// Whether a header can carry these bytes as a name that was given on the command line.
fn is_header_name(name: &[u8]) -> bool
    ensures { result ≡ is_header_name name.now }
{
    if name.is_empty() || name.len() > 255 {
        return false;
    }
    if name[0] == b' ' || name[name.len() - 1] == b' ' {
        return false;
    }
    all_printable(name)
}

fn all_printable(name: &[u8]) -> bool
    ensures { result ≡ list_all is_printable name.now }
{
    name.iter().all(|byte| (32..=126).contains(byte))
}
