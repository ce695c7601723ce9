// The words of the command line, read by hand: a repeated key and a missing value have answers of their own.
ghost use Rattle.std.specs.Prelude.{◌≡◌, true, codes, map, string_bytes, IfOk};
ghost use Rattle.std.specs.Option.{unwrap_or};
ghost use Rattle.command_words.specs.CommandLine.{check_of, decode_of, encode_keys, encode_of, refused_number, words_of};
ghost use Rattle.command_words.specs.Keys.{file_name as file_name_of, is_header_name, value_of};
ghost use Rattle.command_words.specs.Asked.{IsAllowed, IsEncodeAllowed, ReadsCheck, ReadsCommand, ReadsDecode, ReadsEncode, key_model, paired, path_rule};

use crate::index::{IndexWords, read_index};
use crate::keys::{
    Form, Key, Rule, check_pairs, file_name, form_or_file, has_key, number_or, value_in,
};
use crate::post::{PostWords, read_post};
use limits::{LEAST_LINE, MOST_LINE, MOST_PART_BYTES, MOST_PATIENCE};
use yenc_lines::Name;

// The greatest number of a part.
const MOST_PART: u64 = 4_294_967_295;

// How many characters a data line has before it is full, where the words don't say it.
pub(crate) const LINE: u64 = 128;

// What a number of characters in a data line, of bytes in a part and of receives that get nothing may be.
pub(crate) const LINE_RULE: Rule = Rule::Number {
    least: LEAST_LINE as u64,
    most: MOST_LINE as u64,
};

pub(crate) const PART_SIZE_RULE: Rule = Rule::Number {
    least: 1,
    most: MOST_PART_BYTES as u64,
};

pub(crate) const PATIENCE_RULE: Rule = Rule::Number {
    least: 1,
    most: MOST_PATIENCE as u64,
};

// How many receives may get nothing before a server is given up, where the words don't say it.
pub(crate) const PATIENCE: u64 = 1500;

/// What the words ask for.
#[derive(Drop)]
pub enum Command<'a> {
    /// The body of a part of a file.
    Encode(EncodeWords<'a>),
    /// The bytes of a saved body.
    Decode(DecodeWords<'a>),
    /// What the NZB text at a path lists.
    Check(CheckWords<'a>),
    /// That a file is posted.
    Post(PostWords<'a>),
    /// That articles of a newsgroup are indexed.
    Index(IndexWords<'a>),
}

/// What `encode` is asked for.
#[derive(Drop)]
pub struct EncodeWords<'a> {
    /// The path of the file.
    pub path: &'a str,
    /// The name in the header.
    pub name: Name,
    /// How many characters a data line has before it is full, `LEAST_LINE` to `MOST_LINE`.
    pub line: u16,
    /// How many bytes the parts have, 1 to 16,777,216; the last one may have fewer.
    pub part_size: u32,
    /// The number of the part, from 1.
    pub part: u32,
}

/// What `decode` is asked for.
#[derive(Clone, Copy, Debug, Drop)]
pub struct DecodeWords<'a> {
    /// The path of the text.
    pub path: &'a str,
    /// How the body was saved.
    pub form: Form,
}

/// What `check` is asked for.
#[derive(Clone, Copy, Debug, Drop)]
pub struct CheckWords<'a> {
    /// The path of the NZB text.
    pub path: &'a str,
}

/// What the words ask for, or the number of the first word that is refused, counted from 1.
pub fn read_words(words: &[String]) -> Result<Command<'_>, u64>
    ensures words { ReadsCommand (words_of (map string_bytes words.now)) result }
    ensures allowed { IfOk result IsAllowed }
{
    let [command, rest @ ..] = words else {
        return Err(1);
    };
    match command.as_str() {
        "encode" => match read_encode(rest) {
            Ok(asked) => Ok(Command::Encode(asked)),
            Err(number) => Err(number),
        },
        "decode" => match read_decode(rest) {
            Ok(asked) => Ok(Command::Decode(asked)),
            Err(number) => Err(number),
        },
        "check" => match read_check(rest) {
            Ok(asked) => Ok(Command::Check(asked)),
            Err(number) => Err(number),
        },
        "post" => match read_post(rest) {
            Ok(asked) => Ok(Command::Post(asked)),
            Err(number) => Err(number),
        },
        "index" => match read_index(rest) {
            Ok(asked) => Ok(Command::Index(asked)),
            Err(number) => Err(number),
        },
        _ => Err(1),
    }
}

/// The number of the first word that is refused, counted from 1, for the one who explains it. A word that is missing has
/// the number behind the last one.
pub fn refused_word(words: &[String]) -> Option<u64>
    ensures { result ≡ refused_number (words_of (map string_bytes words.now)) }
{
    match read_words(words) {
        Ok(_) => None,
        Err(number) => Some(number),
    }
}

// Which paths a command takes, where a name is given or isn't.
pub(crate) fn path_rule(is_named: bool) -> Rule
    ensures { result ≡ path_rule is_named }
{
    if is_named {
        Rule::Path
    } else {
        Rule::NamedPath
    }
}

// The keys of `encode`, where a name is given or isn't.
fn encode_keys(is_named: bool) -> [Key; 5]
    ensures { map key_model result ≡ encode_keys is_named }
{
    [
        Key {
            word: "--input",
            rule: path_rule(is_named),
        },
        Key {
            word: "--name",
            rule: Rule::HeaderName,
        },
        Key {
            word: "--line",
            rule: LINE_RULE,
        },
        Key {
            word: "--part-size",
            rule: PART_SIZE_RULE,
        },
        Key {
            word: "--part",
            rule: Rule::Number {
                least: 1,
                most: MOST_PART,
            },
        },
    ]
}

// What the words behind `encode` ask for.
fn read_encode(words: &[String]) -> Result<EncodeWords<'_>, u64>
    ensures words { ReadsEncode (encode_of (map string_bytes words.now)) result }
    ensures allowed { IfOk result IsEncodeAllowed }
{
    let keys = encode_keys(has_key(words, "--name"));
    if let Err(number) = check_pairs(&keys, words) {
        return Err(number);
    }
    let Some(path) = value_in(words, "--input") else {
        return Err(words.len() as u64 + 2);
    };
    Ok(EncodeWords {
        path,
        name: header_name(words, path),
        line: number_or(words, "--line", LEAST_LINE as u64, MOST_LINE as u64, LINE) as u16,
        part_size: number_or(
            words,
            "--part-size",
            1,
            MOST_PART_BYTES as u64,
            MOST_PART_BYTES as u64,
        ) as u32,
        part: number_or(words, "--part", 1, MOST_PART, 1) as u32,
    })
}

// The name for the header.
pub(crate) fn header_name(words: &[String], path: &str) -> Name
    requires { is_header_name (unwrap_or (value_of (codes "--name") (paired (map string_bytes words.now))) (file_name_of path.now)) ≡ true }
    ensures { result ≡ unwrap_or (value_of (codes "--name") (paired (map string_bytes words.now))) (file_name_of path.now) }
{
    match Name::new(name_given(words, path)) {
        Some(name) => name,
        None => unreachable!(),
    }
}

// The name that is given, or that of the file.
fn name_given<'a>(words: &'a [String], path: &'a str) -> &'a [u8]
    ensures { result.now ≡ unwrap_or (value_of (codes "--name") (paired (map string_bytes words.now))) (file_name_of path.now) }
{
    match value_in(words, "--name") {
        Some(name) => name.as_bytes(),
        None => file_name(path.as_bytes()),
    }
}

// What the words behind `decode` ask for.
fn read_decode(words: &[String]) -> Result<DecodeWords<'_>, u64>
    ensures { ReadsDecode (decode_of (map string_bytes words.now)) result }
{
    let keys = [
        Key {
            word: "--input",
            rule: Rule::Path,
        },
        Key {
            word: "--form",
            rule: Rule::Form,
        },
    ];
    if let Err(number) = check_pairs(&keys, words) {
        return Err(number);
    }
    match value_in(words, "--input") {
        Some(path) => Ok(DecodeWords {
            path,
            form: form_or_file(words, "--form"),
        }),
        None => Err(words.len() as u64 + 2),
    }
}

// What the words behind `check` ask for.
fn read_check(words: &[String]) -> Result<CheckWords<'_>, u64>
    ensures { ReadsCheck (check_of (map string_bytes words.now)) result }
{
    let keys = [Key {
        word: "--nzb",
        rule: Rule::Path,
    }];
    if let Err(number) = check_pairs(&keys, words) {
        return Err(number);
    }
    match value_in(words, "--nzb") {
        Some(path) => Ok(CheckWords { path }),
        None => Err(words.len() as u64 + 2),
    }
}
