// The store of files in the current folder. What they hold is not told, and neither is which call failed.
ghost use Rattle.std.specs.Prelude.{◌≡◌, ◌≤◌, ◌<◌, ◌==◌, ℕ, [], None, false, true, if◌then◌else◌, length, vec_len, vec_capacity, IfSome, IsTrue, OnOk, OnErr};
ghost use Rattle.io_traits.specs.Causes.{Rose, next_count};
ghost use Rattle.io_traits.specs.Store.{is_created, Creates, Keeps};
ghost use Rattle.io_system.specs.FolderStore.{numbers_of, Forgets};

use crate::folder;
use crate::open_files::OpenFiles;
use io_traits::{Failed, Store, raised};
use std::alloc::Global;
use std::fs::OpenFile;
use std::io;
use std::rt::Files;

/// A file that was created.
#[derive(Drop)]
pub(crate) struct NamedFile {
    number: u32,
    name: String,
}

/// The files of the current folder, by the numbers under which they were created. A name is that of a file in the folder itself: one
/// that is empty, `.` or `..`, or has a slash or a NUL, is refused, and a link isn't followed. Those that were written last are open,
/// a few dozen; another one is opened again when it is written, and not cut by that.
#[derive(Drop)]
pub struct FolderStore<R: Files + Drop> {
    system: R,
    names: Vec<NamedFile>,
    open: OpenFiles<R::File>,
    faults: u64,
    has_failed: bool,
    reason: Option<io::Error>,
}

impl<R: Files + Drop> FolderStore<R> {
    /// The folder that a runtime calls the current one, in which no file was created yet. No call has failed.
    pub fn new(alloc: Global, system: R) -> Self
        ensures created { ⟦<FolderStore<R> as Store>⟧.created result ≡ [] }
        ensures faults { ⟦<FolderStore<R> as Store>⟧.faults result ≡ 0 }
        ensures last { ⟦<FolderStore<R> as Store>⟧.last_failed result ≡ false }
    {
        FolderStore {
            system,
            names: Vec::new(alloc),
            open: OpenFiles::new(alloc),
            faults: 0,
            has_failed: false,
            reason: None,
        }
    }

    /// Why the last call that failed did so, in the system's words, for the one who reads the message.
    pub fn reason(&self) -> Option<&io::Error> {
        self.reason.as_ref()
    }

    // Counts a failed call, and keeps why it failed.
    fn fail(&mut self, error: io::Error) -> Failed
        ensures faults { self.new.faults ≡ next_count self.old.faults }
        ensures later { self.old.faults ≤ self.new.faults }
        ensures rose { Rose self.old.faults self.new.faults }
        ensures last { self.new.has_failed ≡ true }
        ensures names { self.new.names ≡ self.old.names }
    {
        self.reason = Some(error);
        self.faults = raised(self.faults);
        self.has_failed = true;
        Failed
    }
}

impl<R: Files + Drop> Store for FolderStore<R> {
    ghost use Rattle.io_system.specs.FolderStore.{numbers_of};

    ghost faults = { λ s. s.faults };

    ghost created = { λ s. numbers_of s.names.items };

    ghost last_failed = { λ s. s.has_failed };

    ghost told = { λ s. None };

    ghost blame = { λ s. None };

    fn create(&mut self, file: u32, name: &str) -> Result<(), Failed> {
        match create_in(&self.system, &mut self.names, &mut self.open, file, name) {
            Ok(()) => {
                self.has_failed = false;
                Ok(())
            }
            Err(error) => Err(self.fail(error)),
        }
    }

    fn keep(&mut self, file: u32, name: &str) -> Result<(), Failed> {
        match keep_in(&self.system, &mut self.names, &mut self.open, file, name) {
            Ok(()) => {
                self.has_failed = false;
                Ok(())
            }
            Err(error) => Err(self.fail(error)),
        }
    }

    fn write_at(&mut self, file: u32, pos: u64, bytes: &[u8]) -> Result<(), Failed> {
        match write_in(&self.system, &self.names, &mut self.open, file, pos, bytes) {
            Ok(()) => {
                self.has_failed = false;
                Ok(())
            }
            Err(error) => Err(self.fail(error)),
        }
    }

    fn set_len(&mut self, file: u32, len: u64) -> Result<(), Failed> {
        match resize_in(&self.system, &self.names, &mut self.open, file, len) {
            Ok(()) => {
                self.has_failed = false;
                Ok(())
            }
            Err(error) => Err(self.fail(error)),
        }
    }
}

// Makes a file anew. After an error it isn't among the names.
fn create_in<R: Files>(
    system: &R,
    names: &mut Vec<NamedFile>,
    open: &mut OpenFiles<R::File>,
    file: u32,
    name: &str,
) -> io::Result<()>
    ensures { Creates (numbers_of names.old.items) (numbers_of names.new.items) file result }
{
    forget(names, file);
    let _closed = open.take(file);
    let opened = folder::make(system, name)?;
    note(names, file, name)?;
    open.put(file, opened);
    Ok(())
}

// Takes over a file that is there. After an error the names are as they were.
fn keep_in<R: Files>(
    system: &R,
    names: &mut Vec<NamedFile>,
    open: &mut OpenFiles<R::File>,
    file: u32,
    name: &str,
) -> io::Result<()>
    ensures { Keeps (numbers_of names.old.items) (numbers_of names.new.items) file result }
{
    let opened = folder::open(system, name)?;
    let alloc = *names.allocator();
    let name = String::from_str(alloc, name)?;
    names.reserve(1)?;
    forget(names, file);
    let _closed = open.take(file);
    match names.push(NamedFile { number: file, name }) {
        Ok(()) => {
            open.put(file, opened);
            Ok(())
        }
        Err(_) => unreachable!(),
    }
}

// Writes a piece to a file that was created.
fn write_in<R: Files>(
    system: &R,
    names: &Vec<NamedFile>,
    open: &mut OpenFiles<R::File>,
    file: u32,
    pos: u64,
    bytes: &[u8],
) -> io::Result<()>
    requires { IsTrue (is_created (numbers_of names.now.items) file) }
{
    let mut opened = opened_again(system, names, open, file)?;
    let written = folder::write_all(&mut opened, pos, bytes);
    open.put(file, opened);
    written
}

// Changes the length of a file that was created.
fn resize_in<R: Files>(
    system: &R,
    names: &Vec<NamedFile>,
    open: &mut OpenFiles<R::File>,
    file: u32,
    len: u64,
) -> io::Result<()>
    requires { IsTrue (is_created (numbers_of names.now.items) file) }
{
    let opened = opened_again(system, names, open, file)?;
    let resized = opened.set_len(len);
    open.put(file, opened);
    resized
}

// The open file of a number, taken out of those that are open, or opened again.
fn opened_again<R: Files>(
    system: &R,
    names: &Vec<NamedFile>,
    open: &mut OpenFiles<R::File>,
    file: u32,
) -> io::Result<R::File>
    requires { IsTrue (is_created (numbers_of names.now.items) file) }
{
    if let Some(opened) = open.take(file) {
        return Ok(opened);
    }
    match place_of(names, file) {
        Some(place) => folder::open(system, names[place].name.as_str()),
        None => unreachable!(),
    }
}

// The place of the first name of a number.
#[tactic(auto, using(crate::proofs::FolderNames::none_more))]
fn place_of(names: &[NamedFile], file: u32) -> Option<usize>
    ensures found { IfSome result (λ place. place < length names.now) }
    ensures missing { result ≡ None → is_created (numbers_of names.now) file ≡ false }
{
    for (i, named) in names.iter().enumerate() {
        if named.number == file {
            return Some(i);
        }
    }
    None
}

// Takes a number away.
fn forget(names: &mut Vec<NamedFile>, file: u32)
    ensures gone { Forgets file names.old.items names.new.items }
    ensures len { vec_len names.new ≤ vec_len names.old }
    ensures capacity { vec_capacity names.new ≡ vec_capacity names.old }
{
    names.retain(|named| named.number != file);
}

// Adds a number with its name, or changes nothing.
fn note(names: &mut Vec<NamedFile>, file: u32, name: &str) -> io::Result<()>
    ensures ok { OnOk result ((k : ℕ) → is_created (numbers_of names.new.items) k ≡ (if k == file then true else is_created (numbers_of names.old.items) k)) }
    ensures err { OnErr result (names.new.items ≡ names.old.items) }
{
    let alloc = *names.allocator();
    let name = String::from_str(alloc, name)?;
    names.push(NamedFile { number: file, name })?;
    Ok(())
}
