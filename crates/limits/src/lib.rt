//! The limits of usebin: what is larger is refused. Code, clauses, definitions and texts cite these.
#![tactic(auto)]

/// How many files an index may have.
pub const MOST_FILES: u32 = 9_999;

/// How many segments an index may have together, and how many parts a file.
pub const MOST_SEGMENTS: u32 = 262_144;

/// How many bytes a part of a file may have.
pub const MOST_PART_BYTES: u32 = 16_777_216;

/// How many bytes a file may have.
pub const MOST_FILE_BYTES: u64 = 1_099_511_627_776;

/// How many bytes a saved text may have, and a reply with its block.
pub const MOST_TEXT_BYTES: u32 = 67_108_864;

/// How many bytes a login file may have.
pub const MOST_LOGIN_BYTES: u32 = 65_536;

/// How many bytes a keyword line may have.
pub const MOST_KEYWORD_BYTES: usize = 1_024;

/// How few characters a data line may be asked to have before it is full.
pub const LEAST_LINE: u16 = 64;

/// How many characters a data line may be asked to have before it is full: with an escape in its last column and its line end a
/// line of an article has 1,000 bytes at most (RFC 5536, 3).
pub const MOST_LINE: u16 = 997;

/// How many bytes the random word in a message-id may have, and how many its domain.
pub const MOST_ID_BYTES: usize = 64;

/// The greatest number of an article, and of articles: 16 digits (RFC 3977, 9.8).
pub const MOST_ARTICLE: u64 = 9_999_999_999_999_999;

/// How many bytes an article may count in an index.
pub const MOST_OCTETS: u64 = 999_999_999_999;

/// The last moment that an index tells, in seconds since 1970.
pub const LAST_MOMENT: u64 = 999_999_999_999;

/// How many quiet receives may be asked for before a server is given up.
pub const MOST_PATIENCE: u32 = 100_000;

/// How many news servers a fetch asks.
pub const MOST_SERVERS: usize = 16;

/// How many links a fetch has, to all its servers together.
pub const MOST_LINKS: usize = 64;

/// How many requests a link may have without an answer.
pub const MOST_DEPTH: u32 = 32;

/// The greatest level of a news server.
pub const MOST_LEVEL: u8 = 9;
