// The entries and the sizes at first.
ghost use Rattle.std.specs.Prelude.{◌≡◌, ◌++◌, None, replicate, OnOk};
ghost use Rattle.range_assembler.specs.Entries.{free_entry};

use crate::{Entry, Hold};
use lists::Memory;

/// The segments of one more file, none with a range.
pub fn add_file(entries: &mut Vec<Entry>, file: u32, count: u32) -> Result<(), Memory>
    ensures { OnOk result (entries.new.items ≡ entries.old.items ++ replicate count (free_entry file)) }
{
    for done in 0..count {
        entries.push(Entry {
            file,
            hold: Hold::Free,
            first: 1,
            last: 0,
        })?;
    }
    Ok(())
}

/// A size that isn't known for each of so many files.
pub fn add_sizes(sizes: &mut Vec<Option<u64>>, files: usize) -> Result<(), Memory>
    ensures { OnOk result (sizes.new.items ≡ sizes.old.items ++ replicate files None) }
{
    for done in 0..files {
        sizes.push(None)?;
    }
    Ok(())
}
