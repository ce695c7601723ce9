// Zeros over what a part gave that isn't accepted.
ghost use Rattle.std.specs.Prelude.{◌≡◌, ◌≤◌, ◌+◌, IsTrue, OnErr, OnOk, is_err, length, replicate};
ghost use Rattle.io_traits.specs.Causes.{HasCause, blame_after};
ghost use Rattle.io_traits.specs.Store.{LeavesChanged, is_created};
ghost use Rattle.io_traits.specs.declared.blame.Blame.{Blame};
ghost use Rattle.fetch_files.specs.Calls.{BlamesWrite, failed_after, zeroed};
ghost use Rattle.limits.specs.declared.TheConstants.{MOST_FILE_BYTES};

use io_traits::{Failed, Store};

// Zeros are written in pieces of at most so many bytes, so that a part costs few calls.
const PIECE: usize = 65_536;

/// Writes so many zeros to a file, from a place on, counted from 0. Where there are none to write no call is made. After
/// `Failed` the file may hold any bytes.
pub fn clear<T: Store>(store: &mut T, file: u32, place: u64, count: u64) -> Result<(), Failed>
    requires created { IsTrue (is_created (T.created store.old) file) }
    requires small { place + count ≤ MOST_FILE_BYTES }

    // An error comes only where a call failed, and that was a write between the two places.
    ensures cause { HasCause (T.faults store.old) (T.faults store.new) result }
    ensures last { T.last_failed store.new ≡ failed_after (T.last_failed store.old) count result }
    ensures blame { OnErr result (BlamesWrite file place count (T.blame store.old) (T.blame store.new)) }
    ensures blameless { OnOk result (T.blame store.new ≡ T.blame store.old) }

    // The file has the zeros, or after an error any bytes. The others are as they were.
    ensures created { T.created store.new ≡ T.created store.old }
    ensures told { LeavesChanged (T.told store.old) (T.told store.new) file (zeroed place count) result }
{
    let zeros = [0; PIECE];
    let mut done = 0;
    while done < count {
        let len = (count - done).min(PIECE as u64);
        clear_piece(store, file, place + done, &zeros[..len as usize])?;
        done += len;
    }
    Ok(())
}

// Writes a piece of zeros at a place.
fn clear_piece<T: Store>(store: &mut T, file: u32, place: u64, zeros: &[u8]) -> Result<(), Failed>
    requires created { IsTrue (is_created (T.created store.old) file) }
    requires zeros { zeros.now ≡ replicate (length zeros.now) 0 }
    ensures cause { HasCause (T.faults store.old) (T.faults store.new) result }
    ensures last { T.last_failed store.new ≡ is_err result }
    ensures blame { T.blame store.new ≡ blame_after (T.blame store.old) (Blame.Write file place (length zeros.now)) result }
    ensures created { T.created store.new ≡ T.created store.old }
    ensures told { LeavesChanged (T.told store.old) (T.told store.new) file (zeroed place (length zeros.now)) result }
{
    store.write_at(file, place, zeros)
}
