// The few files that are open: those that were written last.
ghost use Rattle.std.specs.Prelude.{◌<◌, IfSome, vec_len};

use std::alloc::Global;

// How many files are open at most. A process may have some 1,024, and links and standard streams among them.
const MOST_OPEN: usize = 32;

/// An open file under its number.
#[derive(Drop)]
struct Opened<F: Drop> {
    number: u32,
    file: F,
}

/// Open files, that which was written last at the end.
#[derive(Drop)]
pub(crate) struct OpenFiles<F: Drop> {
    files: Vec<Opened<F>>,
}

impl<F: Drop> OpenFiles<F> {
    /// No open file.
    pub(crate) fn new(alloc: Global) -> Self {
        OpenFiles {
            files: Vec::new(alloc),
        }
    }

    /// Takes out the file of this number, where it is open.
    pub(crate) fn take(&mut self, number: u32) -> Option<F> {
        let place = self.place_of(number)?;
        Some(self.files.remove(place).file)
    }

    /// Puts in a file that was written. The one that wasn't for the longest time is closed where there are too many, and this one
    /// where there is no memory.
    pub(crate) fn put(&mut self, number: u32, file: F) {
        if self.files.len() >= MOST_OPEN {
            self.files.remove(0);
        }
        let _ = self.files.push(Opened { number, file });
    }

    fn place_of(&self, number: u32) -> Option<usize>
        ensures { IfSome result (λ place. place < vec_len self.now.files) }
    {
        for (i, opened) in self.files.iter().enumerate() {
            if opened.number == number {
                return Some(i);
            }
        }
        None
    }
}
