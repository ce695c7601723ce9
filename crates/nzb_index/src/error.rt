// Why an NZB text has no index.

/// Why no index was read.
#[derive(Clone, Copy, Debug, PartialEq, Eq)]
pub enum NzbError {
    /// No memory was left.
    Memory,
    /// The text is no NZB: the reason that is known first, and its place in the text, from 0.
    Refused { place: usize, reason: NzbReason },
    /// A limit is passed before any reason is known.
    Limit(NzbLimit),
}

/// What is wrong with a text that is no NZB, and which place is told.
#[derive(Clone, Copy, Debug, PartialEq, Eq)]
pub enum NzbReason {
    /// The text ends too early; the text's length.
    Ended,
    /// A byte that cannot stand there; its place.
    Unexpected,
    /// A reference that is none; the place of its `&`.
    BadReference,
    /// A tag that isn't allowed there; the place of its `<`.
    WrongTag,
    /// A second attribute of a name; the place of that name.
    DoubleAttribute,
    /// A segment without a number; the place of its `<`.
    NoNumber,
    /// A number outside its range, or none; the place of the attribute's name.
    BadNumber,
    /// A text that is no message-id; the place of the segment's `<`.
    BadId,
    /// Declarations inside the document type; the place of their `[`.
    Subset,
}

/// A limit that is passed.
#[derive(Clone, Copy, Debug, PartialEq, Eq)]
pub enum NzbLimit {
    /// The text has at most `MOST_TEXT_BYTES` bytes.
    TextBytes,
    /// It lists at most `MOST_FILES` files.
    Files,
    /// They have at most `MOST_SEGMENTS` segments together.
    Segments,
}
