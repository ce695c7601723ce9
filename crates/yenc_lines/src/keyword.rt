// The items of keyword lines.
use crate::Name;

/// What a header line, `=ybegin`, says (yEnc draft 1.3, "Headers and Trailers" and "Multi-part Encoded Binaries").
#[derive(Clone, Debug, Drop)]
pub struct Begin {
    /// The number of this part, from 1, where the file has several.
    pub part: Option<u32>,
    /// How many parts the file has.
    pub total: Option<u32>,
    /// The typical length of a data line, in characters.
    pub line: Option<u32>,
    /// The length of the whole file, in bytes.
    pub size: u64,
    /// The name of the file.
    pub name: Name,
}

/// What the part line, `=ypart`, of one part of several says (yEnc draft 1.3, "Multi-part Encoded Binaries").
#[derive(Clone, Copy, Debug, PartialEq, Eq)]
pub struct PartLine {
    /// The place of the part's first byte in the file, from 1.
    pub begin: u64,
    /// The place of the part's last byte in the file, from 1.
    pub end: u64,
}

/// What a trailer line, `=yend`, says (yEnc draft 1.3, "Headers and Trailers", "Verifying Integrity" and "Multi-part
/// Encoded Binaries").
#[derive(Clone, Copy, Debug, PartialEq, Eq)]
pub struct EndLine {
    /// The length of the part, or of a file in one part, in bytes.
    pub size: u64,
    /// The number of this part, from 1, where the file has several.
    pub part: Option<u32>,
    /// The CRC-32 of the part.
    pub pcrc32: Option<u32>,
    /// The CRC-32 of the whole file.
    pub crc32: Option<u32>,
}
