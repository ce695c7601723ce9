// The set of a PAR 2.0 text.
ghost use Rattle.std.specs.Prelude.{◌≡◌, ◌≤◌, ◌<◌, ◌+◌, ◌++◌, length, take, true, IfOk, OnOk};
ghost use Rattle.std.specs.Option.{option_copied, option_to_list};
ghost use Rattle.std.specs.List.{filter_map, find};
ghost use Rattle.par2_check.specs.Bodies.{is_desc, is_main};
ghost use Rattle.par2_check.specs.Set.{AreEntries, AreFitting, SetEnds, counts_in, file_of, files_of, fits, is_wanted, par_file};
ghost use Rattle.par2_check.specs.Firsts.{AreDescs, AreFirsts};

use crate::bodies::{
    entries_of, entry_count, ids_of, is_desc, is_main, is_slice_size, is_slices, name_of,
    slice_count,
};
use crate::fields::{long_at, sixteen_at};
use crate::firsts::Firsts;
use crate::packets::{Packets, packets_of};
use lists::{Bytes, List, Memory, bytes_of};
use std::alloc::Global;

/// A file of a set.
#[derive(Drop)]
pub struct ParFile {
    /// Its name, as it stands in the text.
    pub name: Bytes,
    /// How many bytes it has.
    pub size: u64,
    /// The MD5 of all its bytes.
    pub md5: [u8; 16],
    /// The MD5 of each slice, where zeros fill the last one.
    pub slices: List<[u8; 16]>,
}

impl ParFile {
    /// Whether slices may have this size, and the file has an MD5 for each of them.
    pub fn fits(&self, slice: u64) -> bool
        ensures { result ≡ fits slice self.now }
    {
        is_slice_size(slice) && self.slices.len() as u64 == slice_count(slice, self.size)
    }
}

/// A set of files that are cut into slices of one size.
#[derive(Drop)]
pub struct ParSet {
    /// How many bytes a slice has.
    pub slice: u64,
    /// The files that are described whole, in the order of the set.
    pub files: List<ParFile>,
}

/// Why a text has no set.
#[derive(Clone, Copy, Debug, PartialEq, Eq)]
pub enum ParError {
    /// No memory was left.
    Memory,
    /// No Main counts.
    NoMain,
}

/// Reads the set of a text: the slice size of the first Main that counts, and, in the order of its ids, the files that have a
/// FileDesc that counts and an IFSC that counts with as many entries as they have slices.
pub fn read_par(alloc: Global, text: &[u8]) -> Result<ParSet, ParError>
    ensures set { SetEnds text.now result }
    ensures fits { IfOk result AreFitting }
{
    let Ok(packets) = packets_of(alloc, text) else {
        return Err(ParError::Memory);
    };
    let Some(main) = first_main(&packets) else {
        return Err(ParError::NoMain);
    };
    match files_of(alloc, &packets, main) {
        Ok(files) => Ok(ParSet {
            slice: long_at(main, 64),
            files,
        }),
        Err(Memory) => Err(ParError::Memory),
    }
}

// The first Main that counts.
fn first_main<'a>(packets: &'a Packets<'_>) -> Option<&'a [u8]>
    ensures { option_copied result ≡ find is_main packets.now }
{
    for i in 0..packets.len() {
        let packet = packets.packet(i);
        if is_main(packet) {
            return Some(packet);
        }
    }
    None
}

// The files of the set of a Main.
fn files_of(alloc: Global, packets: &Packets<'_>, main: &[u8]) -> Result<List<ParFile>, Memory>
    requires { is_main main.now ≡ true }
    ensures { IfOk result (λ files. files ≡ files_of main.now packets.now) }
{
    let slice = long_at(main, 64);
    let set = sixteen_at(main, 32);
    let descs = descs_of(alloc, packets, &set)?;
    let entries = slices_of(alloc, packets, &set, slice, &descs)?;
    let ids = ids_of(alloc, main)?;
    described(
        alloc,
        packets,
        &set,
        slice,
        &descs,
        &entries,
        ids.as_slice(),
    )
}

// The files of these ids that have both packets.
fn described(
    alloc: Global,
    packets: &Packets<'_>,
    set: &[u8; 16],
    slice: u64,
    descs: &Firsts,
    entries: &Firsts,
    ids: &[[u8; 16]],
) -> Result<List<ParFile>, Memory>
    requires descs { AreDescs set.now packets.now descs.now }
    requires entries { AreEntries slice set.now packets.now entries.now }
    ensures { IfOk result (λ files. files ≡ filter_map (file_of slice set.now packets.now) ids.now) }
{
    let mut files = List::new(alloc);
    for id in ids {
        add_file(packets, set, slice, descs, entries, id, &mut files)?;
    }
    Ok(files)
}

// The first FileDesc of each id.
fn descs_of(alloc: Global, packets: &Packets<'_>, set: &[u8; 16]) -> Result<Firsts, Memory>
    ensures { IfOk result (AreDescs set.now packets.now) }
{
    let mut descs = Firsts::new(alloc);
    for i in 0..packets.len() {
        add_desc(packets, i, set, &mut descs)?;
    }
    Ok(descs)
}

// Adds a packet where it is a FileDesc that counts.
fn add_desc(
    packets: &Packets<'_>,
    number: usize,
    set: &[u8; 16],
    descs: &mut Firsts,
) -> Result<(), Memory>
    requires { number < length packets.now }
    ensures { OnOk result (AreFirsts (is_desc set.now) packets.now (take number packets.now) descs.old → AreFirsts (is_desc set.now) packets.now (take (number + 1) packets.now) descs.new) }
{
    let packet = packets.packet(number);
    if !is_desc(packet, set) {
        return Ok(());
    }
    descs.add(sixteen_at(packet, 64), number)
}

// The first IFSC of each id that has as many entries as the file of the id has slices.
fn slices_of(
    alloc: Global,
    packets: &Packets<'_>,
    set: &[u8; 16],
    slice: u64,
    descs: &Firsts,
) -> Result<Firsts, Memory>
    requires descs { AreDescs set.now packets.now descs.now }
    requires slice { 4 ≤ slice }
    ensures { IfOk result (AreEntries slice set.now packets.now) }
{
    let mut entries = Firsts::new(alloc);
    for i in 0..packets.len() {
        add_slices(packets, i, set, slice, descs, &mut entries)?;
    }
    Ok(entries)
}

// Adds a packet where it is an IFSC that counts, with as many entries as the file of its id has slices.
fn add_slices(
    packets: &Packets<'_>,
    number: usize,
    set: &[u8; 16],
    slice: u64,
    descs: &Firsts,
    entries: &mut Firsts,
) -> Result<(), Memory>
    requires inside { number < length packets.now }
    requires descs { AreDescs set.now packets.now descs.now }
    requires slice { 4 ≤ slice }
    ensures { OnOk result (AreFirsts (counts_in slice set.now packets.now) packets.now (take number packets.now) entries.old → AreFirsts (counts_in slice set.now packets.now) packets.now (take (number + 1) packets.now) entries.new) }
{
    let packet = packets.packet(number);
    if !is_slices(packet, set) {
        return Ok(());
    }
    if !is_wanted(packet, packets, set, slice, descs) {
        return Ok(());
    }
    entries.add(sixteen_at(packet, 64), number)
}

// Whether an IFSC has as many entries as the file of its id has slices.
fn is_wanted(
    packet: &[u8],
    packets: &Packets<'_>,
    set: &[u8; 16],
    slice: u64,
    descs: &Firsts,
) -> bool
    requires long { 80 ≤ length packet.now }
    requires descs { AreDescs set.now packets.now descs.now }
    requires slice { 4 ≤ slice }
    ensures { result ≡ is_wanted slice set.now packets.now packet.now }
{
    let Some(number) = descs.first(&sixteen_at(packet, 64)) else {
        return false;
    };
    let size = long_at(packets.packet(number), 112);
    entry_count(packet) as u64 == slice_count(slice, size)
}

// Adds the file of an id, where it has both packets.
fn add_file(
    packets: &Packets<'_>,
    set: &[u8; 16],
    slice: u64,
    descs: &Firsts,
    entries: &Firsts,
    id: &[u8; 16],
    files: &mut List<ParFile>,
) -> Result<(), Memory>
    requires descs { AreDescs set.now packets.now descs.now }
    requires entries { AreEntries slice set.now packets.now entries.now }
    ensures { OnOk result (files.new ≡ files.old ++ option_to_list (file_of slice set.now packets.now id.now)) }
{
    let Some(desc) = descs.first(id) else {
        return Ok(());
    };
    let Some(slices) = entries.first(id) else {
        return Ok(());
    };
    let file = par_file(files.alloc(), packets.packet(desc), packets.packet(slices))?;
    files.push(file)
}

// The file of a FileDesc and an IFSC.
fn par_file(alloc: Global, desc: &[u8], slices: &[u8]) -> Result<ParFile, Memory>
    requires desc { 120 ≤ length desc.now }
    requires slices { 80 ≤ length slices.now }
    ensures { IfOk result (λ file. file ≡ par_file desc.now slices.now) }
{
    Ok(ParFile {
        name: bytes_of(alloc, name_of(desc))?,
        size: long_at(desc, 112),
        md5: sixteen_at(desc, 80),
        slices: entries_of(alloc, slices)?,
    })
}
