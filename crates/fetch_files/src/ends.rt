// The files at the begin and at the end of a fetch.
ghost use Rattle.std.specs.Prelude.{◌≡◌, ◌<◌, ◌≤◌, ℕ, IsTrue, OnErr, OnOk, is_err, length};
ghost use Rattle.article_head.specs.OutName.{out_name};
ghost use Rattle.io_traits.specs.Causes.{BlamesNamed, HasCause, blame_after};
ghost use Rattle.io_traits.specs.Store.{Creates, LeavesChanged, LeavesMade, is_created, resized};
ghost use Rattle.io_traits.specs.declared.blame.Blame.{Blame};
ghost use Rattle.range_assembler.specs.Entries.{kept_size};
ghost use Rattle.fetch_files.specs.Calls.{AreCreated, BlamesCreate, BlamesSetLen, CreatesNoneFrom, LeavesFirstMade, LeavesFirstSized, failed_after};
ghost use Rattle.fetch_files.specs.Filled.{final_size};
ghost use Rattle.fetch_files.specs.Names.{name_at};
ghost use Rattle.limits.specs.declared.TheConstants.{MOST_FILES};

use article_head::out_name;
use io_traits::{Failed, Store};
use nzb_writer::{FileEntry, Index};
use range_assembler::Assembler;

/// Makes the files of an index, each under the name that its subject gives it, with no byte. After `Failed` some of them are
/// made.
pub fn create_files<T: Store>(store: &mut T, index: &Index) -> Result<(), Failed>
    requires few { length index.now.files ≤ MOST_FILES }

    // An error comes only where a call failed, and that was the making of one of these files.
    ensures cause { HasCause (T.faults store.old) (T.faults store.new) result }
    ensures last { T.last_failed store.new ≡ failed_after (T.last_failed store.old) (length index.now.files) result }
    ensures blame { OnErr result (BlamesCreate (length index.now.files) (name_at index.now.files) (T.blame store.old) (T.blame store.new) result) }
    ensures blameless { OnOk result (T.blame store.new ≡ T.blame store.old) }

    // Each has its name and no byte. Those of other numbers are as they were.
    ensures created { OnOk result (AreCreated (length index.now.files) (T.created store.new)) }
    ensures others { CreatesNoneFrom (length index.now.files) (T.created store.old) (T.created store.new) }
    ensures told { LeavesFirstMade (T.told store.old) (T.told store.new) (length index.now.files) (name_at index.now.files) result }
{
    let files = index.files.as_slice();
    for file in 0..files.len() {
        create_file(store, file as u32, &files[file])?;
    }
    Ok(())
}

// Makes one file of an index.
fn create_file<T: Store>(store: &mut T, file: u32, entry: &FileEntry) -> Result<(), Failed>
    requires { file < MOST_FILES }
    ensures cause { HasCause (T.faults store.old) (T.faults store.new) result }
    ensures last { T.last_failed store.new ≡ is_err result }
    ensures blame { BlamesNamed (T.blame store.old) (T.blame store.new) (Blame.Create file (out_name file entry.now.subject)) result }
    ensures created { Creates (T.created store.old) (T.created store.new) file result }
    ensures told { LeavesMade (T.told store.old) (T.told store.new) file (out_name file entry.now.subject) result }
{
    let name = out_name(file, entry.subject.as_slice());
    store.create(file, name.as_str())
}

/// Gives each of the first `count` files the size of its accepted parts, or no byte where it has none. After `Failed` these
/// files may hold any bytes.
pub fn set_lengths<T: Store>(store: &mut T, ranges: &Assembler, count: u32) -> Result<(), Failed>
    requires created { AreCreated count (T.created store.old) }

    // An error comes only where a call failed, and that was a change of the length of one of these files.
    ensures cause { HasCause (T.faults store.old) (T.faults store.new) result }
    ensures last { T.last_failed store.new ≡ failed_after (T.last_failed store.old) count result }
    ensures blame { OnErr result (BlamesSetLen count (λ file. final_size (kept_size file ranges.now)) (T.blame store.old) (T.blame store.new)) }
    ensures blameless { OnOk result (T.blame store.new ≡ T.blame store.old) }

    // Each has its name, and its bytes cut or filled up to its size. Those of other numbers are as they were.
    ensures created { T.created store.new ≡ T.created store.old }
    ensures told { LeavesFirstSized (T.told store.old) (T.told store.new) count (λ file. final_size (kept_size file ranges.now)) result }
{
    for file in 0..count {
        set_length(store, ranges, file)?;
    }
    Ok(())
}

// Gives one file the size of its accepted parts.
fn set_length<T: Store>(store: &mut T, ranges: &Assembler, file: u32) -> Result<(), Failed>
    requires { IsTrue (is_created (T.created store.old) file) }
    ensures cause { HasCause (T.faults store.old) (T.faults store.new) result }
    ensures last { T.last_failed store.new ≡ is_err result }
    ensures blame { T.blame store.new ≡ blame_after (T.blame store.old) (Blame.SetLen file (final_size (kept_size file ranges.now))) result }
    ensures created { T.created store.new ≡ T.created store.old }
    ensures told { LeavesChanged (T.told store.old) (T.told store.new) file (resized (final_size (kept_size file ranges.now))) result }
{
    store.set_len(file, ranges.size(file).unwrap_or(0))
}
