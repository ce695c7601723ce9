// A store in memory.
ghost use Rattle.std.specs.Prelude.{◌≡◌, ◌≢◌, ◌≤◌, ◌+◌, ◌⊎◌, ◌==◌, ℕ, [], length, Some, None, IfOk, IsTrue, OnOk, OnErr, Contains, is_err, is_some, true, false, if◌then◌else◌};
ghost use Rattle.std.specs.Option.{option_map};
ghost use Rattle.io_traits.specs.Causes.{HasCause, BlamesNamed, Rose, blame_after, next_count};
ghost use Rattle.io_traits.specs.Store.{LeavesMade, LeavesChanged, is_created, Creates, HoldsNamed, Keeps, written_at, resized};

use crate::mem_files::MemFiles;
use io_traits::{Blame, Failed, Store, raised};
use lists::{List, Memory, bytes_of};
use std::alloc::Global;

/// How many bytes a file of a store in memory may have.
pub const MOST_STORED_BYTES: u64 = 268_435_456;

/// A store in memory, of which chosen calls fail, and each call that would make a file longer than `MOST_STORED_BYTES`. A call
/// for which there is no memory fails too.
#[derive(Drop)]
pub struct MemStore {
    files: MemFiles,
    failing: List<u64>,
    calls: u64,
    faults: u64,
    has_failed: bool,
    blame: Option<Blame>,
    alloc: Global,
}

impl MemStore {
    ghost use Rattle.io_memory.specs.MemStore.{store_files, store_created, store_failing, store_calls, store_faults, store_failed, store_blame};

    /// A store of no file. `failing` has the numbers, from 1, of the calls that are to fail. It takes no memory yet.
    pub fn new(alloc: Global, failing: List<u64>) -> Result<Self, Memory>
        ensures files { IfOk result (λ store. (k : ℕ) → store_files store k ≡ None) }
        ensures created { IfOk result (λ store. store_created store ≡ []) }
        ensures failing { IfOk result (λ store. store_failing store ≡ failing) }
        ensures calls { IfOk result (λ store. store_calls store ≡ 0) }
        ensures faults { IfOk result (λ store. store_faults store ≡ 0) }
        ensures last { IfOk result (λ store. store_failed store ≡ false) }
        ensures blame { IfOk result (λ store. store_blame store ≡ None) }
    {
        Ok(MemStore {
            files: MemFiles::new(alloc),
            failing,
            calls: 0,
            faults: 0,
            has_failed: false,
            blame: None,
            alloc,
        })
    }

    /// The bytes of the file of this number, or nothing exactly where it wasn't created.
    pub fn file(&self, file: u32) -> Option<&[u8]>
        ensures bytes { option_map (λ bytes. bytes.now) result ≡ option_map (λ held. held.bytes) (store_files self.now file) }
        ensures there { is_some (option_map (λ bytes. bytes.now) result) ≡ is_created (store_created self.now) file }
    {
        self.files.bytes(file)
    }

    // Counts a failed call, and blames it.
    fn fail(&mut self, call: Option<Blame>)
        ensures faults { store_faults self.new ≡ next_count (store_faults self.old) }
        ensures later { store_faults self.old ≤ store_faults self.new }
        ensures rose { Rose (store_faults self.old) (store_faults self.new) }
        ensures last { store_failed self.new ≡ true }
        ensures blame { store_blame self.new ≡ call }
        ensures files { self.new.files ≡ self.old.files }
        ensures calls { store_calls self.new ≡ store_calls self.old }
        ensures failing { store_failing self.new ≡ store_failing self.old }
    {
        self.faults = raised(self.faults);
        self.has_failed = true;
        self.blame = call;
    }
}

impl Store for MemStore {
    ghost use Rattle.io_traits.specs.declared.blame.Blame.{Blame};
    ghost use Rattle.io_memory.specs.declared.mem_store.TheConstants.{MOST_STORED_BYTES};
    ghost use Rattle.io_memory.specs.MemFiles.{SameShelf};
    ghost use Rattle.io_memory.specs.MemStore.{store_files, store_created, store_failing, store_calls, store_faults, store_failed, store_blame};

    ghost faults = { store_faults };

    ghost created = { store_created };

    ghost last_failed = { store_failed };

    ghost told = { λ s. Some (store_files s) };

    ghost blame = { λ s. Some (store_blame s) };

    /// Makes the file, unless this call's number is one of those that fail.
    fn create(&mut self, file: u32, name: &str) -> Result<(), Failed>
        ensures cause { HasCause (store_faults self.old) (store_faults self.new) result }
        ensures blame { BlamesNamed (Some (store_blame self.old)) (Some (store_blame self.new)) (Blame.Create file name.now) result }
        ensures last { store_failed self.new ≡ is_err result }
        ensures created { Creates (store_created self.old) (store_created self.new) file result }
        ensures told { LeavesMade (Some (store_files self.old)) (Some (store_files self.new)) file name.now result }

        // The calls are counted, and those of the chosen numbers fail.
        ensures calls { store_calls self.new ≡ next_count (store_calls self.old) }
        ensures counted { OnErr result (store_faults self.new ≡ next_count (store_faults self.old)) }
        ensures chosen { store_failing self.new ≡ store_failing self.old }
        ensures ok { OnOk result (¬ Contains (store_failing self.old) (next_count (store_calls self.old))) }
    {
        self.calls = raised(self.calls);
        if self.failing.as_slice().contains(&self.calls) {
            self.files.remove(file);
            self.fail(creating(self.alloc, file, name));
            return Err(Failed);
        }
        match self.files.make(file, name) {
            Ok(()) => {
                self.has_failed = false;
                Ok(())
            }
            Err(Memory) => {
                self.fail(creating(self.alloc, file, name));
                Err(Failed)
            }
        }
    }

    /// Takes over the file, unless this call's number is one of those that fail, or no file of this number and name is there.
    fn keep(&mut self, file: u32, name: &str) -> Result<(), Failed>
        ensures cause { HasCause (store_faults self.old) (store_faults self.new) result }
        ensures blame { BlamesNamed (Some (store_blame self.old)) (Some (store_blame self.new)) (Blame.Keep file name.now) result }
        ensures last { store_failed self.new ≡ is_err result }
        ensures created { Keeps (store_created self.old) (store_created self.new) file result }
        ensures told { Some (store_files self.new) ≡ Some (store_files self.old) }
        ensures held { OnOk result (HoldsNamed (Some (store_files self.old)) file name.now) }

        // The calls are counted, and those of the chosen numbers fail, and those for a file that isn't there, and no others.
        ensures calls { store_calls self.new ≡ next_count (store_calls self.old) }
        ensures counted { OnErr result (store_faults self.new ≡ next_count (store_faults self.old)) }
        ensures chosen { store_failing self.new ≡ store_failing self.old }
        ensures ok { OnOk result (¬ Contains (store_failing self.old) (next_count (store_calls self.old))) }
        ensures failing { OnErr result (Contains (store_failing self.old) (next_count (store_calls self.old)) ⊎ (¬ HoldsNamed (Some (store_files self.old)) file name.now)) }
    {
        self.calls = raised(self.calls);
        if self.failing.as_slice().contains(&self.calls) {
            self.fail(keeping(self.alloc, file, name));
            return Err(Failed);
        }
        if !self.files.is_named(file, name) {
            self.fail(keeping(self.alloc, file, name));
            return Err(Failed);
        }
        self.has_failed = false;
        Ok(())
    }

    /// Writes the whole piece, unless this call's number is one of those that fail or the file would become too long.
    fn write_at(&mut self, file: u32, pos: u64, bytes: &[u8]) -> Result<(), Failed>
        requires created { IsTrue (is_created (store_created self.old) file) }
        ensures cause { HasCause (store_faults self.old) (store_faults self.new) result }
        ensures blame { Some (store_blame self.new) ≡ blame_after (Some (store_blame self.old)) (Blame.Write file pos (length bytes.now)) result }
        ensures last { store_failed self.new ≡ is_err result }
        ensures created { store_created self.new ≡ store_created self.old }
        ensures told { LeavesChanged (Some (store_files self.old)) (Some (store_files self.new)) file (written_at pos bytes.now) result }

        // The calls are counted, and those of the chosen numbers fail, and those that pass the limit. They change no file.
        ensures calls { store_calls self.new ≡ next_count (store_calls self.old) }
        ensures counted { OnErr result (store_faults self.new ≡ next_count (store_faults self.old)) }
        ensures chosen { store_failing self.new ≡ store_failing self.old }
        ensures ok { OnOk result (¬ Contains (store_failing self.old) (next_count (store_calls self.old))) }
        ensures limit { OnOk result ((bytes.now ≡ []) ⊎ (pos + length bytes.now ≤ MOST_STORED_BYTES)) }
        ensures unchanged { OnErr result (SameShelf (store_files self.old) (store_files self.new)) }
    {
        self.calls = raised(self.calls);
        let call = Blame::Write(file, pos, bytes.len() as u64);
        if self.failing.as_slice().contains(&self.calls) {
            self.fail(Some(call));
            return Err(Failed);
        }
        if bytes.is_empty() {
            self.has_failed = false;
            return Ok(());
        }
        if pos > MOST_STORED_BYTES || bytes.len() as u64 > MOST_STORED_BYTES - pos {
            self.fail(Some(call));
            return Err(Failed);
        }
        match self.files.write(file, pos as usize, bytes) {
            Ok(()) => {
                self.has_failed = false;
                Ok(())
            }
            Err(Memory) => {
                self.fail(Some(call));
                Err(Failed)
            }
        }
    }

    /// Cuts the file or fills it up, unless this call's number is one of those that fail or the file would become too long.
    fn set_len(&mut self, file: u32, len: u64) -> Result<(), Failed>
        requires created { IsTrue (is_created (store_created self.old) file) }
        ensures cause { HasCause (store_faults self.old) (store_faults self.new) result }
        ensures blame { Some (store_blame self.new) ≡ blame_after (Some (store_blame self.old)) (Blame.SetLen file len) result }
        ensures last { store_failed self.new ≡ is_err result }
        ensures created { store_created self.new ≡ store_created self.old }
        ensures told { LeavesChanged (Some (store_files self.old)) (Some (store_files self.new)) file (resized len) result }

        // The calls are counted, and those of the chosen numbers fail, and those that pass the limit. They change no file.
        ensures calls { store_calls self.new ≡ next_count (store_calls self.old) }
        ensures counted { OnErr result (store_faults self.new ≡ next_count (store_faults self.old)) }
        ensures chosen { store_failing self.new ≡ store_failing self.old }
        ensures ok { OnOk result (¬ Contains (store_failing self.old) (next_count (store_calls self.old))) }
        ensures limit { OnOk result (len ≤ MOST_STORED_BYTES) }
        ensures unchanged { OnErr result (SameShelf (store_files self.old) (store_files self.new)) }
    {
        self.calls = raised(self.calls);
        let call = Blame::SetLen(file, len);
        if self.failing.as_slice().contains(&self.calls) || len > MOST_STORED_BYTES {
            self.fail(Some(call));
            return Err(Failed);
        }
        match self.files.resize(file, len as usize) {
            Ok(()) => {
                self.has_failed = false;
                Ok(())
            }
            Err(Memory) => {
                self.fail(Some(call));
                Err(Failed)
            }
        }
    }
}

// The blame for the making of a file, or nothing where there is no room for its name.
fn creating(alloc: Global, file: u32, name: &str) -> Option<Blame>
    ensures { (result ≡ Some (Blame.Create file name.now)) ⊎ (result ≡ None) }
{
    match bytes_of(alloc, name.as_bytes()) {
        Ok(bytes) => Some(Blame::Create(file, bytes)),
        Err(Memory) => None,
    }
}

// The blame for the taking over of a file, or nothing where there is no room for its name.
fn keeping(alloc: Global, file: u32, name: &str) -> Option<Blame>
    ensures { (result ≡ Some (Blame.Keep file name.now)) ⊎ (result ≡ None) }
{
    match bytes_of(alloc, name.as_bytes()) {
        Ok(bytes) => Some(Blame::Keep(file, bytes)),
        Err(Memory) => None,
    }
}
