// Files of a folder that are written: which names they may have, and how they are opened.

use std::fs::{OpenFile, OpenOptions};
use std::io::{ErrorKind, Seek, SeekFrom, Write};
use std::os::unix::fs::MetadataExt;
use std::rt::Files;
use std::{fs, io};

/// Makes the file of this name anew, with no byte. A link of that name is refused and not followed.
pub(crate) fn make<R: Files>(system: &R, name: &str) -> io::Result<R::File> {
    if !is_plain(name) {
        return Err(not_plain());
    }
    match OpenOptions::new()
        .write(true)
        .create_new(true)
        .open(system, name)
    {
        Ok(file) => Ok(file),
        Err(error) if error.kind() == ErrorKind::AlreadyExists => {
            let file = open(system, name)?;
            file.set_len(0)?;
            Ok(file)
        }
        Err(error) => Err(error),
    }
}

/// Opens the file of this name, which is there, and doesn't cut it. A link of that name is refused and not followed: what the name
/// stands for is asked first, and what was opened has to be the same. So nothing is changed by an opening, and a pipe isn't waited for.
pub(crate) fn open<R: Files>(system: &R, name: &str) -> io::Result<R::File> {
    if !is_plain(name) {
        return Err(not_plain());
    }
    let named = fs::symlink_metadata(system, name)?;
    if !named.is_file() {
        return Err(not_regular());
    }
    let file = OpenOptions::new().write(true).open(system, name)?;
    let opened = file.metadata()?;
    if opened.dev() != named.dev() || opened.ino() != named.ino() {
        return Err(not_regular());
    }
    Ok(file)
}

/// Writes all bytes at a place, as often as the system takes a part. A write that takes none of them has failed.
pub(crate) fn write_all<F: Write + Seek>(file: &mut F, pos: u64, bytes: &[u8]) -> io::Result<()> {
    if bytes.is_empty() {
        return Ok(());
    }
    file.seek(SeekFrom::Start(pos))?;
    let mut done = 0;
    for _ in 0..u64::MAX {
        if done >= bytes.len() {
            return Ok(());
        }
        match file.write(&bytes[done..]) {
            Ok(0) => return Err(io::Error::from(ErrorKind::WriteZero)),
            Ok(n) => done += n,
            Err(error) if error.kind() == ErrorKind::Interrupted => {}
            Err(error) => return Err(error),
        }
    }
    Err(io::Error::from(ErrorKind::Interrupted))
}

// Whether a name is that of a file in the folder itself.
fn is_plain(name: &str) -> bool {
    let bytes = name.as_bytes();
    !bytes.is_empty()
        && bytes != b".".as_slice()
        && bytes != b"..".as_slice()
        && !bytes.contains(&b'/')
        && !bytes.contains(&0)
}

fn not_plain() -> io::Error {
    io::Error::new(
        ErrorKind::InvalidInput,
        "not the name of a file in this folder",
    )
}

fn not_regular() -> io::Error {
    io::Error::new(ErrorKind::Unsupported, "not a regular file")
}
