// Files of the system. What they hold is not told, and neither is which call failed.
ghost use Rattle.std.specs.Prelude.{◌≡◌, ◌≤◌, None, IfOk, length};
ghost use Rattle.std.specs.Option.{option_map};

use io_traits::{Failed, Input, raised};
use std::fs::{File, OpenFile};
use std::io::{ErrorKind, Read, Seek, SeekFrom};
use std::rt::Files;
use std::{fs, io};

/// The files of the system, by their paths. Only a regular file has a length to read to, so the opening of anything else
/// fails, and so does that of a file without a length that has bytes all the same.
#[derive(Drop)]
pub struct FileInput<R: Files + Drop> {
    system: R,
    file: Option<R::File>,
    len: u64,
    faults: u64,
    shorts: u64,
    short_place: u64,
    reason: Option<io::Error>,
}

impl<R: Files + Drop> FileInput<R> {
    /// Files that a runtime opens, of which none is current yet. No call has failed, and no read has given no byte.
    pub fn new(system: R) -> Self
        ensures current { ⟦<FileInput<R> as Input>⟧.current result ≡ None }
        ensures faults { ⟦<FileInput<R> as Input>⟧.faults result ≡ 0 }
        ensures shorts { ⟦<FileInput<R> as Input>⟧.shorts result ≡ 0 }
    {
        FileInput {
            system,
            file: None,
            len: 0,
            faults: 0,
            shorts: 0,
            short_place: 0,
            reason: None,
        }
    }

    /// Why the last call that failed did so, in the system's words, for the one who reads the message.
    pub fn reason(&self) -> Option<&io::Error> {
        self.reason.as_ref()
    }
}

impl<R: Files + Drop> Input for FileInput<R> {
    ghost faults = { λ s. s.faults };

    ghost shorts = { λ s. s.shorts };

    ghost short_place = { λ s. s.short_place };

    ghost current = { λ s. option_map (λ _. s.len) s.file };

    ghost content = { λ s. None };

    ghost files = { λ s. None };

    ghost blame = { λ s. None };

    fn open(&mut self, name: &str) -> Result<u64, Failed> {
        self.file = None;
        match open_regular(&self.system, name) {
            Ok((file, len)) => {
                self.file = Some(file);
                self.len = len;
                Ok(len)
            }
            Err(error) => {
                self.reason = Some(error);
                self.faults = raised(self.faults);
                Err(Failed)
            }
        }
    }

    fn read_at(&mut self, pos: u64, buf: &mut [u8]) -> Result<usize, Failed> {
        match &mut self.file {
            Some(file) => match read_from(file, pos, buf) {
                Ok(0) => {
                    self.shorts = raised(self.shorts);
                    self.short_place = pos;
                    Ok(0)
                }
                Ok(n) => Ok(n),
                Err(error) => {
                    self.reason = Some(error);
                    self.faults = raised(self.faults);
                    Err(Failed)
                }
            },
            None => unreachable!(),
        }
    }
}

// Opens a regular file, and says its length. What it is, is asked before it is opened: the opening of a pipe would wait
// for a writer.
fn open_regular<R: Files>(system: &R, name: &str) -> io::Result<(R::File, u64)> {
    if !fs::metadata(system, name)?.is_file() {
        return Err(not_regular());
    }
    let mut file = File::open(system, name)?;
    let metadata = file.metadata()?;
    if !metadata.is_file() || (metadata.len() == 0 && has_byte(&mut file)?) {
        return Err(not_regular());
    }
    Ok((file, metadata.len()))
}

fn not_regular() -> io::Error {
    io::Error::new(ErrorKind::Unsupported, "not a file with a length")
}

// Whether a file of no length has a byte all the same, as some of the system's own have.
fn has_byte<F: Read>(file: &mut F) -> io::Result<bool> {
    let mut byte = [0; 1];
    Ok(read_uninterrupted(file, &mut byte)? > 0)
}

fn read_from<F: Read + Seek>(file: &mut F, pos: u64, buf: &mut [u8]) -> io::Result<usize>
    ensures { IfOk result (λ n. n ≤ length buf.new) }
{
    file.seek(SeekFrom::Start(pos))?;
    read_uninterrupted(file, buf)
}

// Reads, and again where a signal came in between, which no file does without end.
fn read_uninterrupted<F: Read>(file: &mut F, buf: &mut [u8]) -> io::Result<usize>
    ensures { IfOk result (λ n. n ≤ length buf.new) }
{
    for _ in 0..u64::MAX {
        match file.read(buf) {
            Ok(n) => return Ok(n),
            Err(error) if error.kind() == ErrorKind::Interrupted => {}
            Err(error) => return Err(error),
        }
    }
    Err(io::Error::from(ErrorKind::Interrupted))
}
