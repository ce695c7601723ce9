// How a file is posted.
use lists::Bytes;
use nntp_lines::Login;
use yenc_lines::Name;

/// How a file is posted. What a post demands of the fields stands beside each; it demands nothing of the server's address.
#[derive(Drop)]
pub struct Settings {
    /// The address of the server.
    pub server: Bytes,
    /// Who logs in there, if anyone does (RFC 4643, 2.3).
    pub login: Option<Login>,
    /// Who posts: 1 to 200 printable ASCII characters, with no space at either end (RFC 5536, 3.1.2).
    pub from: Bytes,
    /// Where to: 1 to 10 names of newsgroups with commas between them, at most 600 bytes (RFC 5536, 3.1.4).
    pub newsgroups: Bytes,
    /// What the message-ids of all parts begin with: 1 to `MOST_ID_BYTES` letters, digits, `-` and `_`.
    pub token: Bytes,
    /// The domain of the message-ids: 1 to `MOST_ID_BYTES` bytes, pieces of letters, digits and `-` with one dot between two.
    pub domain: Bytes,
    /// What the subjects begin with: 0 to 200 printable ASCII characters, with no space at either end.
    pub comment: Bytes,
    /// The name of the file, of printable ASCII characters.
    pub name: Name,
    /// How many characters a data line has before it is full, from `LEAST_LINE` to `MOST_LINE`.
    pub line: u16,
    /// How many bytes a part has, from 1 to 16,777,216; the last one may have fewer.
    pub part_size: u64,
    /// How many receives after each other may get nothing, from 1 to 100,000.
    pub patience: u32,
}
