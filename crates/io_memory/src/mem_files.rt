// Files in memory that are written, by their numbers.
ghost use Rattle.std.specs.Prelude.{◌≡◌, ◌+◌, ◌-◌, ◌<◌, ◌≤◌, ◌^◌, ℕ, false, ◌==◌, if◌then◌else◌, [], ◌++◌, take, drop, replicate, length, Some, None, IfSome, IfOk, OnOk, OnErr, IsTrue, slice_get};
ghost use Rattle.std.specs.Option.{option_map};
ghost use Rattle.io_traits.specs.Store.{written_at, resized};

use lists::{Bytes, Memory, bytes_of};
use std::alloc::Global;

/// A file that is held.
#[derive(Drop)]
pub(crate) struct MemFile {
    number: u32,
    name: Bytes,
    bytes: Vec<u8>,
}

/// The files that are held, each under a number.
#[derive(Drop)]
pub(crate) struct MemFiles {
    items: Vec<MemFile>,
}

impl MemFiles {
    ghost use Rattle.io_traits.specs.Store.{Puts, Spares, with_bytes, is_created, Creates, LeavesMade, HoldsNamed};
    ghost use Rattle.io_memory.specs.MemFiles.{shelf_of, numbers_of, stored, IsFirst, SameShelf};

    /// No file.
    pub(crate) fn new(alloc: Global) -> Self
        ensures { result.items.items ≡ [] }
    {
        MemFiles {
            items: Vec::new(alloc),
        }
    }

    /// The bytes of the file of this number, where there is one.
    pub(crate) fn bytes(&self, file: u32) -> Option<&[u8]>
        ensures held { option_map (λ bytes. bytes.now) result ≡ option_map (λ held. held.bytes) (shelf_of self.now.items.items file) }
    {
        match self.place_of(file) {
            Some(place) => Some(&self.items[place].bytes),
            None => None,
        }
    }

    /// Whether the file of this number is there under this name.
    pub(crate) fn is_named(&self, file: u32, name: &str) -> bool
        ensures yes { IsTrue result → option_map (λ held. held.name) (shelf_of self.now.items.items file) ≡ Some name.now }
        ensures all { option_map (λ held. held.name) (shelf_of self.now.items.items file) ≡ Some name.now → IsTrue result }
    {
        match self.place_of(file) {
            Some(place) => self.items[place].name.as_slice() == name.as_bytes(),
            None => false,
        }
    }

    /// Takes away the file of this number.
    pub(crate) fn remove(&mut self, file: u32)
        ensures told { Puts file None (shelf_of self.old.items.items) (shelf_of self.new.items.items) }
        ensures created { (k : ℕ) → is_created (numbers_of self.new.items.items) k ≡ (if k == file then false else is_created (numbers_of self.old.items.items) k) }
    {
        self.items.retain(|held| held.number != file);
    }

    /// Makes the file of this number, with this name and no byte, in place of an earlier one. After `Memory` it isn't there.
    pub(crate) fn make(&mut self, file: u32, name: &str) -> Result<(), Memory>
        ensures told { LeavesMade (Some (shelf_of self.old.items.items)) (Some (shelf_of self.new.items.items)) file name.now result }
        ensures created { Creates (numbers_of self.old.items.items) (numbers_of self.new.items.items) file result }
    {
        self.remove(file);
        let alloc = *self.items.allocator();
        let name = bytes_of(alloc, name.as_bytes())?;
        self.items.push(MemFile {
            number: file,
            name,
            bytes: Vec::new(alloc),
        })?;
        Ok(())
    }

    /// Writes a piece into the file of this number, which is there, or changes no file's bytes.
    pub(crate) fn write(&mut self, file: u32, pos: usize, bytes: &[u8]) -> Result<(), Memory>
        requires created { IsTrue (is_created (numbers_of self.old.items.items) file) }
        requires room { pos + length bytes.now < 2 ^ 63 }
        ensures ok { OnOk result (Puts file (option_map (with_bytes (written_at pos bytes.now)) (shelf_of self.old.items.items file)) (shelf_of self.old.items.items) (shelf_of self.new.items.items)) }
        ensures err { OnErr result (SameShelf (shelf_of self.old.items.items) (shelf_of self.new.items.items)) }
        ensures numbers { numbers_of self.new.items.items ≡ numbers_of self.old.items.items }
    {
        match self.place_of(file) {
            Some(place) => write_into(&mut self.items[place].bytes, pos, bytes),
            None => unreachable!(),
        }
    }

    /// Cuts the file of this number, which is there, to a length, or fills it up with zeros, or changes no file's bytes.
    pub(crate) fn resize(&mut self, file: u32, len: usize) -> Result<(), Memory>
        requires { IsTrue (is_created (numbers_of self.old.items.items) file) }
        ensures ok { OnOk result (Puts file (option_map (with_bytes (resized len)) (shelf_of self.old.items.items file)) (shelf_of self.old.items.items) (shelf_of self.new.items.items)) }
        ensures err { OnErr result (SameShelf (shelf_of self.old.items.items) (shelf_of self.new.items.items)) }
        ensures numbers { numbers_of self.new.items.items ≡ numbers_of self.old.items.items }
    {
        match self.place_of(file) {
            Some(place) => resize_to(&mut self.items[place].bytes, len),
            None => unreachable!(),
        }
    }

    // The place of the first file of this number.
    #[tactic(auto, using(crate::proofs::FileLaws::none_more))]
    fn place_of(&self, file: u32) -> Option<usize>
        ensures found { IfSome result (λ place. IsFirst self.now.items.items file place) }
        ensures missing { result ≡ None → shelf_of self.now.items.items file ≡ None }
    {
        for (i, held) in self.items.iter().enumerate() {
            if held.number == file {
                return Some(i);
            }
        }
        None
    }
}

// Writes a piece at a place, with zeros in a gap before it, or changes no byte.
fn write_into(held: &mut Vec<u8>, pos: usize, bytes: &[u8]) -> Result<(), Memory>
    requires { pos + length bytes.now < 2 ^ 63 }
    ensures ok { OnOk result (held.new.items ≡ written_at pos bytes.now held.old.items) }
    ensures err { OnErr result (held.new.items ≡ held.old.items) }
{
    if bytes.is_empty() {
        return Ok(());
    }
    fill(held, pos + bytes.len())?;
    overwrite(held, pos, bytes);
    Ok(())
}

// Fills bytes up with zeros to a length, where they have fewer.
fn fill(held: &mut Vec<u8>, len: usize) -> Result<(), Memory>
    ensures ok { OnOk result (held.new.items ≡ held.old.items ++ replicate (len - length held.old.items) 0) }
    ensures err { OnErr result (held.new.items ≡ held.old.items) }
{
    if held.len() < len {
        held.resize(len, 0)?;
    }
    Ok(())
}

// Puts a piece over the bytes at a place.
fn overwrite(held: &mut [u8], pos: usize, bytes: &[u8])
    requires { pos + length bytes.now ≤ length held.old }
    ensures put { held.new ≡ take pos held.old ++ bytes.now ++ drop (pos + length bytes.now) held.old }
    ensures len { length held.new ≡ length held.old }
{
    let end = pos + bytes.len();
    held[pos..end].copy_from_slice(bytes);
}

// Cuts bytes to a length, or fills them up with zeros, or changes none.
fn resize_to(held: &mut Vec<u8>, len: usize) -> Result<(), Memory>
    ensures ok { OnOk result (held.new.items ≡ resized len held.old.items) }
    ensures err { OnErr result (held.new.items ≡ held.old.items) }
{
    held.resize(len, 0)?;
    Ok(())
}
