// What an NZB text lists.
use lists::{Bytes, List};
use nntp_lines::MessageId;

/// What an NZB text lists (NZB 1.1), in the order of the text.
#[derive(Drop)]
pub struct Index {
    /// What is said of the whole.
    pub metas: List<Meta>,
    /// The files.
    pub files: List<FileEntry>,
}

/// One thing that is said of the whole: a `meta` of the head.
#[derive(Drop)]
pub struct Meta {
    /// The attribute `type`, or nothing where it is missing.
    pub kind: Bytes,
    /// The text, without white at its ends.
    pub text: Bytes,
}

/// A file, with where its articles are.
#[derive(Drop)]
pub struct FileEntry {
    /// Who posted it.
    pub poster: Bytes,
    /// When it was posted, in Unix seconds, up to `LAST_MOMENT`; 0 where that is missing.
    pub date: u64,
    /// The subject of its articles.
    pub subject: Bytes,
    /// The newsgroups that it was posted to.
    pub groups: List<Bytes>,
    /// Its articles.
    pub segments: List<Segment>,
}

/// One article of a file.
#[derive(Drop)]
pub struct Segment {
    /// Which part of the file it holds, from 1 to 4,294,967,295.
    pub number: u32,
    /// Its length in bytes, up to `MOST_OCTETS`; 0 where that is missing.
    pub bytes: u64,
    /// Its message-id.
    pub id: MessageId,
}
