// The words of the command `post`.
ghost use Rattle.std.specs.Prelude.{◌≡◌, map, string_bytes, IfOk};
ghost use Rattle.command_words.specs.Asked.{key_model};
ghost use Rattle.command_words.specs.Post.{IsPostAllowed, ReadsPost, post_found, post_keys, post_of};

use crate::keys::{
    Key, Rule, bytes_of, check_pairs, has_all, has_key, number_or, text_of, value_in,
};
use crate::words::{
    LINE, LINE_RULE, PART_SIZE_RULE, PATIENCE, PATIENCE_RULE, header_name, path_rule,
};
use limits::{LEAST_LINE, MOST_LINE, MOST_PART_BYTES, MOST_PATIENCE};
use yenc_lines::Name;

// How many bytes a part has where the words don't say it.
const PART_SIZE: u64 = 750_000;

const REQUIRED: [&str; 6] = [
    "--input", "--server", "--from", "--group", "--token", "--domain",
];

/// What `post` is asked for.
#[derive(Drop)]
pub struct PostWords<'a> {
    /// The path of the file.
    pub path: &'a str,
    /// The address of the news server, `HOST:PORT`.
    pub server: &'a [u8],
    /// Who posts: 1 to 200 printable ASCII characters, with no space at either end (RFC 5536, 3.1.2).
    pub from: &'a [u8],
    /// Where to: 1 to 10 names of newsgroups with commas between them, at most 600 bytes (RFC 5536, 3.1.4).
    pub newsgroups: &'a [u8],
    /// What the message-ids of the file begin with: 1 to `MOST_ID_BYTES` letters, digits, dashes and underscores.
    pub token: &'a [u8],
    /// The domain in the message-ids: at most `MOST_ID_BYTES` bytes.
    pub domain: &'a [u8],
    /// The name of the file in the header and in the subject: 1 to 255 printable ASCII characters, with no space at either
    /// end.
    pub name: Name,
    /// What the subject begins with: 0 to 200 printable ASCII characters, with no space at either end.
    pub comment: &'a [u8],
    /// How many characters a data line has before it is full, `LEAST_LINE` to `MOST_LINE`.
    pub line: u16,
    /// How many bytes the parts have, 1 to 16,777,216; the last one may have fewer.
    pub part_size: u32,
    /// After how many receives that got nothing the server is given up, 1 to 100,000.
    pub patience: u32,
    /// The path of the login file, if there is one.
    pub login: Option<&'a str>,
}

// The keys of `post`, where a name is given or isn't.
fn post_keys(is_named: bool) -> [Key; 12]
    ensures { map key_model result ≡ post_keys is_named }
{
    [
        Key {
            word: "--input",
            rule: path_rule(is_named),
        },
        Key {
            word: "--server",
            rule: Rule::Server,
        },
        Key {
            word: "--from",
            rule: Rule::From,
        },
        Key {
            word: "--group",
            rule: Rule::Newsgroups,
        },
        Key {
            word: "--token",
            rule: Rule::Token,
        },
        Key {
            word: "--domain",
            rule: Rule::Domain,
        },
        Key {
            word: "--name",
            rule: Rule::HeaderName,
        },
        Key {
            word: "--comment",
            rule: Rule::Comment,
        },
        Key {
            word: "--line",
            rule: LINE_RULE,
        },
        Key {
            word: "--part-size",
            rule: PART_SIZE_RULE,
        },
        Key {
            word: "--patience",
            rule: PATIENCE_RULE,
        },
        Key {
            word: "--login",
            rule: Rule::Path,
        },
    ]
}

/// What the words behind `post` ask for. The error is the number of the first word that is refused, where that behind the
/// command is the second; where a required key is missing, it is the number behind the last word.
pub fn read_post(words: &[String]) -> Result<PostWords<'_>, u64>
    ensures words { ReadsPost (post_of (map string_bytes words.now)) result }
    ensures allowed { IfOk result (λ asked. IsPostAllowed (post_found asked)) }
{
    let keys = post_keys(has_key(words, "--name"));
    if let Err(number) = check_pairs(&keys, words) {
        return Err(number);
    }
    if !has_all(&REQUIRED, words) {
        return Err(words.len() as u64 + 2);
    }
    let path = text_of(words, "--input");
    Ok(PostWords {
        path,
        server: bytes_of(words, "--server"),
        from: bytes_of(words, "--from"),
        newsgroups: bytes_of(words, "--group"),
        token: bytes_of(words, "--token"),
        domain: bytes_of(words, "--domain"),
        name: header_name(words, path),
        comment: bytes_of(words, "--comment"),
        line: number_or(words, "--line", LEAST_LINE as u64, MOST_LINE as u64, LINE) as u16,
        part_size: number_or(words, "--part-size", 1, MOST_PART_BYTES as u64, PART_SIZE) as u32,
        patience: number_or(words, "--patience", 1, MOST_PATIENCE as u64, PATIENCE) as u32,
        login: value_in(words, "--login"),
    })
}
