// The parts that a file is posted in.
use lists::List;
use nntp_lines::MessageId;

/// The parts that a file is posted in.
#[derive(Drop)]
pub struct Plan {
    /// The file's length in bytes.
    pub size: u64,
    /// Its parts, in order.
    pub parts: List<PlanPart>,
}

/// A part of a file, and the message-id of its article.
#[derive(Clone, Debug, Drop)]
pub struct PlanPart {
    /// The offset of the part's first byte in the file, from 1.
    pub first: u64,
    /// How many bytes the part has.
    pub len: u64,
    /// The message-id of its article.
    pub id: MessageId,
}

/// Why there is no plan.
#[derive(Clone, Copy, Debug, PartialEq, Eq)]
pub enum PlanError {
    /// No memory was left.
    Memory,
    /// The file would have so many parts, which are more than `MOST_SEGMENTS`.
    TooManyParts(u64),
}
