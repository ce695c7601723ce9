// The keys of items, and what is wrong with a keyword line.
ghost use Rattle.std.specs.Prelude.{◌≡◌};
ghost use Rattle.yenc_lines.specs.Keywords.{key_name};

/// The key of an item in a keyword line (yEnc draft 1.3, "Headers and Trailers" and "Multi-part Encoded Binaries").
#[derive(Clone, Copy, Debug, PartialEq, Eq)]
pub enum Key {
    /// `part`, the part's number.
    Part,
    /// `total`, how many parts there are.
    Total,
    /// `line`, the typical length of a data line.
    Line,
    /// `size`, the length of the file, or in a trailer line of a part that of the part.
    Size,
    /// `name`, the file's name.
    Name,
    /// `begin`, the offset of the part's first byte.
    Begin,
    /// `end`, the offset of the part's last byte.
    End,
    /// `pcrc32`, the CRC-32 of the part.
    Pcrc32,
    /// `crc32`, the CRC-32 of the file.
    Crc32,
}

impl Key {
    /// The key as it stands in a line.
    pub fn as_bytes(self) -> &'static [u8]
        ensures { result.now ≡ key_name self }
    {
        match self {
            Key::Part => b"part",
            Key::Total => b"total",
            Key::Line => b"line",
            Key::Size => b"size",
            Key::Name => b"name",
            Key::Begin => b"begin",
            Key::End => b"end",
            Key::Pcrc32 => b"pcrc32",
            Key::Crc32 => b"crc32",
        }
    }
}

/// Why a line can't be read as a keyword line of its kind: of its items the first that fails, from left to right, and
/// where none fails the first required key without an item.
#[derive(Clone, Copy, Debug, PartialEq, Eq)]
pub enum KeyFault {
    /// The line doesn't begin with the keyword and a space.
    NotIt,
    /// There is no item with this required key.
    NoItem(Key),
    /// The item's value is no number in the key's range.
    BadNumber(Key),
    /// The key stood before in the line.
    Repeated(Key),
    /// The name is empty, longer than 255 bytes, or holds NUL, CR or LF.
    BadName,
}
