// Files in memory.
ghost use Rattle.std.specs.Prelude.{◌≡◌, ◌≤◌, ◌<◌, ◌-◌, ◌⊎◌, min, length, Some, None, IfOk, IfSome, OnOk, OnErr, IsSomeAnd, Contains, slice_get};
ghost use Rattle.std.specs.Option.{option_map};
ghost use Rattle.io_traits.specs.Causes.{HasCause, BlamesNamed, blame_after, next_count};
ghost use Rattle.io_traits.specs.Input.{file_of, Opens, OpensFile, GivesAt};

use io_traits::{Blame, Failed, Input, opening, raised};
use lists::{Bytes, List};

/// Files in memory, by name. Chosen calls fail, and so does the opening of a name that no file has.
#[derive(Drop)]
pub struct MemInput {
    files: List<(Bytes, Bytes)>,
    failing: List<u64>,
    current: Option<usize>,
    calls: u64,
    faults: u64,
    blame: Option<Blame>,
}

impl MemInput {
    ghost use Rattle.io_memory.specs.InMemory.{input_blame, input_calls, input_content, input_failing, input_faults, input_files};

    /// An input of these files, each a name and its bytes, of which none is current. `failing` has the numbers, from
    /// 1, of the calls that are to fail.
    pub fn new(files: List<(Bytes, Bytes)>, failing: List<u64>) -> Self
        ensures files { input_files result ≡ files }
        ensures failing { input_failing result ≡ failing }
        ensures calls { input_calls result ≡ 0 }
        ensures faults { input_faults result ≡ 0 }
        ensures content { input_content result ≡ None }
        ensures blame { input_blame result ≡ None }
    {
        MemInput {
            files,
            failing,
            current: None,
            calls: 0,
            faults: 0,
            blame: None,
        }
    }
}

impl Input for MemInput {
    ghost use Rattle.io_memory.specs.InMemory.{input_blame, input_calls, input_content, input_failing, input_faults, input_files};

    ghost faults = { input_faults };

    ghost shorts = { λ s. 0 };

    ghost short_place = { λ s. 0 };

    ghost current = { λ s. option_map length (input_content s) };

    ghost content = { input_content };

    ghost files = { λ s. Some (input_files s) };

    ghost blame = { λ s. Some (input_blame s) };

    /// Opens the first file with the name, unless this call's number is one of those that fail.
    fn open(&mut self, name: &str) -> Result<u64, Failed>
        ensures cause { HasCause (input_faults self.old) (input_faults self.new) result }
        ensures blame { BlamesNamed (Some (input_blame self.old)) (Some (input_blame self.new)) (Blame.Open name.now) result }
        ensures current { Opens (option_map length (input_content self.new)) result }
        ensures content { OpensFile name.now (Some (input_files self.old)) (input_content self.new) result }
        ensures files { Some (input_files self.new) ≡ Some (input_files self.old) }

        // The calls are counted, and those of the chosen numbers fail, and of the others those for a name without a file.
        ensures calls { input_calls self.new ≡ next_count (input_calls self.old) }
        ensures counted { OnErr result (input_faults self.new ≡ next_count (input_faults self.old)) }
        ensures chosen { input_failing self.new ≡ input_failing self.old }
        ensures ok { OnOk result (¬ Contains (input_failing self.old) (next_count (input_calls self.old))) }
        ensures failing { OnErr result (Contains (input_failing self.old) (next_count (input_calls self.old)) ⊎ (file_of name.now (input_files self.old) ≡ None)) }
    {
        self.calls = raised(self.calls);
        self.current = None;
        if self.failing.as_slice().contains(&self.calls) {
            self.faults = raised(self.faults);
            self.blame = opening(self.files.alloc(), name.as_bytes());
            return Err(Failed);
        }
        match place_of(self.files.as_slice(), name) {
            Some(place) => {
                self.current = Some(place);
                Ok(self.files.as_slice()[place].1.len() as u64)
            }
            None => {
                self.faults = raised(self.faults);
                self.blame = opening(self.files.alloc(), name.as_bytes());
                Err(Failed)
            }
        }
    }

    /// Reads as many bytes as there are and the buffer takes, unless this call's number is one of those that fail.
    fn read_at(&mut self, pos: u64, buf: &mut [u8]) -> Result<usize, Failed>
        requires inside { IsSomeAnd (option_map length (input_content self.old)) (λ len. pos < len) }
        requires room { 0 < length buf.old }
        ensures cause { HasCause (input_faults self.old) (input_faults self.new) result }
        ensures blame { Some (input_blame self.new) ≡ blame_after (Some (input_blame self.old)) (Blame.Read pos) result }
        ensures bound { IfOk result (λ n. n ≤ length buf.old) }
        ensures bytes { IfOk result (GivesAt (input_content self.old) pos buf.new) }
        ensures content { input_content self.new ≡ input_content self.old }
        ensures files { Some (input_files self.new) ≡ Some (input_files self.old) }

        // The calls are counted, and those of the chosen numbers fail, and no others.
        ensures most { IfOk result (λ n. IfSome (input_content self.old) (λ bytes. n ≡ min (length buf.old) (length bytes - pos))) }
        ensures calls { input_calls self.new ≡ next_count (input_calls self.old) }
        ensures counted { OnErr result (input_faults self.new ≡ next_count (input_faults self.old)) }
        ensures chosen { input_failing self.new ≡ input_failing self.old }
        ensures ok { OnOk result (¬ Contains (input_failing self.old) (next_count (input_calls self.old))) }
        ensures failing { OnErr result (Contains (input_failing self.old) (next_count (input_calls self.old))) }
    {
        self.calls = raised(self.calls);
        if self.failing.as_slice().contains(&self.calls) {
            self.faults = raised(self.faults);
            self.blame = Some(Blame::Read(pos));
            return Err(Failed);
        }
        match self.current {
            Some(place) => {
                let file = &self.files.as_slice()[place];
                Ok(copy_from(file.1.as_slice(), pos as usize, buf))
            }
            None => unreachable!(),
        }
    }
}

// Copies bytes from a place on to the front of a buffer, and says how many.
pub(crate) fn copy_from(bytes: &[u8], from: usize, buf: &mut [u8]) -> usize
    requires { from < length bytes.now }
    ensures count { result ≡ min (length buf.old) (length bytes.now - from) }
    ensures gives { 0 < length buf.old → GivesAt (Some bytes.now) from buf.new result }
{
    let rest = &bytes[from..];
    let n = rest.len().min(buf.len());
    buf[..n].copy_from_slice(&rest[..n]);
    n
}

// The place of the first file with a name.
fn place_of(files: &[(Bytes, Bytes)], name: &str) -> Option<usize>
    ensures found { IfSome result (λ place. option_map (λ file. file.1) (slice_get files.now place) ≡ file_of name.now files.now) }
    ensures inside { IfSome result (λ place. place < length files.now) }
    ensures missing { result ≡ None → file_of name.now files.now ≡ None }
{
    for (i, file) in files.iter().enumerate() {
        if file.0.as_slice() == name.as_bytes() {
            return Some(i);
        }
    }
    None
}
