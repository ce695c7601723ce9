// A file in parts.
ghost use Rattle.std.specs.Prelude.{◌≡◌, ◌≤◌};
ghost use Rattle.yenc_body.specs.Parts.{parts_of as parts_of_file};

/// How many parts a file of so many bytes has that is cut, from its start, into parts of a length: one where it has no
/// bytes.
pub fn parts_of(size: u64, part_size: u64) -> u64
    requires { 1 ≤ part_size }
    ensures { result ≡ parts_of_file size part_size }
{
    size.div_ceil(part_size).max(1)
}
