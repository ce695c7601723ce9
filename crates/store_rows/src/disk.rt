// A file system that stands in for a folder elsewhere, and for a disk that takes few bytes at a time and is full soon.

use std::alloc::{Allocator, Global};
use std::fs::{Metadata, OpenFile, OpenOptions};
use std::io::{ErrorKind, Read, Seek, SeekFrom, Write};
use std::rt::Files;
use std::{fs, io};

/// How many bytes a write to such a disk takes at most.
const MOST_TAKEN: usize = 3;

/// The host's files in a folder. Each file has room for so many bytes from its opening on.
#[derive(Drop)]
pub(crate) struct Disk<'a, R: Files> {
    pub(crate) host: &'a R,
    pub(crate) alloc: Global,
    pub(crate) folder: &'a str,
    pub(crate) room: usize,
}

impl<'a, R: Files> Disk<'a, R> {
    // The host's path of a name in the folder.
    fn path(&self, name: &str) -> io::Result<String> {
        let mut path = String::from_str(self.alloc, self.folder)?;
        path.push_str("/")?;
        path.push_str(name)?;
        Ok(path)
    }
}

impl<'a, R: Files> Files for Disk<'a, R> {
    type File = SmallFile<R::File>;

    type Dir = R::Dir;

    fn open_file(&self, how: &OpenOptions, path: &str) -> io::Result<SmallFile<R::File>> {
        let file = self.host.open_file(how, self.path(path)?.as_str())?;
        Ok(SmallFile {
            file,
            room: self.room,
            is_interrupted: true,
        })
    }

    fn open_dir(&self, path: &str) -> io::Result<R::Dir> {
        self.host.open_dir(self.path(path)?.as_str())
    }

    fn metadata(&self, path: &str) -> io::Result<Metadata> {
        self.host.metadata(self.path(path)?.as_str())
    }

    fn symlink_metadata(&self, path: &str) -> io::Result<Metadata> {
        self.host.symlink_metadata(self.path(path)?.as_str())
    }

    fn copy(&self, _from: &str, _to: &str) -> io::Result<u64> {
        Err(io::Error::from(ErrorKind::Unsupported))
    }

    fn rename(&self, _from: &str, _to: &str) -> io::Result<()> {
        Err(io::Error::from(ErrorKind::Unsupported))
    }

    fn remove_file(&self, _path: &str) -> io::Result<()> {
        Err(io::Error::from(ErrorKind::Unsupported))
    }

    fn create_dir(&self, _path: &str) -> io::Result<()> {
        Err(io::Error::from(ErrorKind::Unsupported))
    }

    fn remove_dir(&self, _path: &str) -> io::Result<()> {
        Err(io::Error::from(ErrorKind::Unsupported))
    }

    fn remove_dir_all<B: Allocator>(&self, _alloc: B, _path: &str) -> io::Result<()> {
        Err(io::Error::from(ErrorKind::Unsupported))
    }
}

/// A file on such a disk. Its first write is interrupted.
#[derive(Drop)]
pub(crate) struct SmallFile<F: Drop> {
    file: F,
    room: usize,
    is_interrupted: bool,
}

impl<F: Write + Drop> Write for SmallFile<F> {
    fn write(&mut self, buf: &[u8]) -> io::Result<usize> {
        if self.is_interrupted {
            self.is_interrupted = false;
            return Err(io::Error::from(ErrorKind::Interrupted));
        }
        if self.room == 0 {
            return Err(io::Error::from(ErrorKind::StorageFull));
        }
        let most = buf.len().min(self.room).min(MOST_TAKEN);
        let taken = self.file.write(&buf[..most])?;
        self.room -= taken;
        Ok(taken)
    }

    fn flush(&mut self) -> io::Result<()> {
        self.file.flush()
    }
}

impl<F: Read + Drop> Read for SmallFile<F> {
    fn read(&mut self, buf: &mut [u8]) -> io::Result<usize> {
        self.file.read(buf)
    }
}

impl<F: Seek + Drop> Seek for SmallFile<F> {
    fn seek(&mut self, to: SeekFrom) -> io::Result<u64> {
        self.file.seek(to)
    }
}

impl<F: OpenFile + Drop> OpenFile for SmallFile<F> {
    fn metadata(&self) -> io::Result<Metadata> {
        self.file.metadata()
    }

    fn set_len(&self, size: u64) -> io::Result<()> {
        self.file.set_len(size)
    }

    fn sync_all(&self) -> io::Result<()> {
        self.file.sync_all()
    }

    fn sync_data(&self) -> io::Result<()> {
        self.file.sync_data()
    }
}
