// The files of the system, and the path of the one that was opened last.

use io_system::FileInput;
use io_traits::{Failed, Input};
use std::alloc::Global;
use std::io;
use std::rt::Files;

/// The files of the system. The path of the one that was opened last is kept, where there is memory for it, to be named when a call
/// on it fails.
#[derive(Drop)]
pub(crate) struct NamedInput<R: Files + Drop> {
    files: FileInput<R>,
    alloc: Global,
    path: Option<String>,
}

impl<R: Files + Drop> NamedInput<R> {
    /// Files that a runtime opens, of which none was opened yet.
    pub(crate) fn new(alloc: Global, system: R) -> Self {
        NamedInput {
            files: FileInput::new(system),
            alloc,
            path: None,
        }
    }

    /// The path of the file that was opened last, or that couldn't be.
    pub(crate) fn path(&self) -> Option<&str> {
        match &self.path {
            Some(path) => Some(path.as_str()),
            None => None,
        }
    }

    /// Why the last call that failed did so, in the system's words.
    pub(crate) fn reason(&self) -> Option<&io::Error> {
        self.files.reason()
    }
}

impl<R: Files + Drop> Input for NamedInput<R> {
    ghost faults = { λ s. ⟦<FileInput<R> as Input>⟧.faults s.files };

    ghost shorts = { λ s. ⟦<FileInput<R> as Input>⟧.shorts s.files };

    ghost short_place = { λ s. ⟦<FileInput<R> as Input>⟧.short_place s.files };

    ghost current = { λ s. ⟦<FileInput<R> as Input>⟧.current s.files };

    ghost content = { λ s. ⟦<FileInput<R> as Input>⟧.content s.files };

    ghost files = { λ s. ⟦<FileInput<R> as Input>⟧.files s.files };

    ghost blame = { λ s. ⟦<FileInput<R> as Input>⟧.blame s.files };

    fn open(&mut self, name: &str) -> Result<u64, Failed> {
        self.path = String::from_str(self.alloc, name).ok();
        self.files.open(name)
    }

    fn read_at(&mut self, pos: u64, buf: &mut [u8]) -> Result<usize, Failed> {
        self.files.read_at(pos, buf)
    }
}
