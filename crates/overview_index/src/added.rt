// What becomes of a line that is added to an index.
ghost use Rattle.std.specs.Prelude.{◌≡◌};

use lists::Memory;

/// What a line of an overview brought to the index.
#[derive(Clone, Copy, Debug, PartialEq, Eq)]
pub enum Added {
    /// A segment.
    New,
    /// Nothing: its file has a segment of its number already.
    Repeat,
    /// Nothing: its subject has no count.
    NoCount,
}

/// Why a line was not added to an index.
#[derive(Clone, Copy, Debug, PartialEq, Eq)]
pub enum GroupError {
    /// No memory was left.
    Memory,
    /// It would bring one segment more than `MOST_SEGMENTS`.
    Segments,
    /// It would begin one file more than `MOST_FILES`.
    Files,
}

impl From<Memory> for GroupError {
    ghost use Rattle.overview_index.specs.declared.added.GroupError.TheVariants as errors;

    ghost from_gives = { λ _ error. error ≡ errors.Memory };

    fn from(_: Memory) -> Self {
        GroupError::Memory
    }
}
