// The command `check`.
ghost use Rattle.std.specs.Prelude.{◌≡◌, ◌<◌, ◌^◌, None, length, sum_by};
ghost use Rattle.nzb_writer.specs.Canonical.{IsValidIndex};
ghost use Rattle.command_words.specs.CommandLine.Words.{Asks};
ghost use Rattle.command_words.specs.CommandLine.Command.{Check};
ghost use Rattle.input_files.specs.Reading.{reading};
ghost use Rattle.usebin_cli.specs.Check.{Checks, bytes_of, counts_of as counts, nzb_limit};
ghost use Rattle.usebin_cli.specs.Run.{HasEnded};
ghost use Rattle.usebin_cli.specs.Writing.{written};

use crate::printed::write_counts;
use crate::writing::write_all;
use command_words::CheckWords;
use input_files::{ReadError, read_file};
use io_traits::{Failed, Input, Sink};
use limits::MOST_TEXT_BYTES;
use nzb_index::{NzbError, NzbLimit, read_nzb};
use nzb_writer::{FileEntry, Index};
use run_ends::{End, Limit};
use std::alloc::Global;

/// How many files an index has, and how many segments and bytes they have together.
#[derive(Clone, Copy, Debug, PartialEq, Eq)]
pub(crate) struct Counts {
    pub(crate) files: u64,
    pub(crate) segments: u64,
    pub(crate) bytes: u64,
}

/// Reads the NZB text at a path, and writes how many files, segments and bytes it lists.
pub(crate) fn check<I: Input, O: Sink>(
    alloc: Global,
    asked: CheckWords<'_>,
    input: &mut I,
    out: &mut O,
) -> End
    ensures ended { HasEnded (Asks (Check asked.entry.path.now)) (reading I.Input input.old input.new) (written O.Sink out.old out.new) None result }
    ensures so { Checks asked.entry.path.now (I.files input.old) (reading I.Input input.old input.new) (written O.Sink out.old out.new) result }
{
    let text = match read_file(alloc, asked.path, MOST_TEXT_BYTES as u64, input) {
        Ok(text) => text,
        Err(ReadError::Memory) => return End::NoMemory,
        Err(ReadError::Fault) => return End::InputFault,
        Err(ReadError::Short(place)) => return End::Short(place),
        Err(ReadError::TooLong) => return End::Limit(Limit::Text),
    };
    let index = match read_nzb(alloc, text.as_slice()) {
        Ok(index) => index,
        Err(NzbError::Memory) => return End::NoMemory,
        Err(NzbError::Refused { place, reason }) => return End::NoNzb { place, reason },
        Err(NzbError::Limit(limit)) => return End::Limit(limit_of(limit)),
    };
    let mut lines = [0; 160];
    let len = write_counts(counts_of(&index), &mut lines);
    match write_all(out, &lines[..len]) {
        Ok(()) => End::Done,
        Err(Failed) => End::OutputFault,
    }
}

// The limit that an NZB text passes.
fn limit_of(limit: NzbLimit) -> Limit
    ensures { result ≡ nzb_limit limit }
{
    match limit {
        NzbLimit::TextBytes => Limit::Text,
        NzbLimit::Files => Limit::Files,
        NzbLimit::Segments => Limit::Segments,
    }
}

fn counts_of(index: &Index) -> Counts
    requires { IsValidIndex index.now }
    ensures { result ≡ counts index.now }
{
    let files = index.files.as_slice();
    Counts {
        files: files.len() as u64,
        segments: segment_count(files),
        bytes: byte_count(files),
    }
}

// How many segments files have together.
fn segment_count(files: &[FileEntry]) -> u64
    requires { sum_by (λ f. length f.segments) files.now < 2 ^ 64 }
    ensures { result ≡ sum_by (λ f. length f.segments) files.now }
{
    files.iter().map(|file| file.segments.len() as u64).sum()
}

// How many bytes the segments of files have together.
fn byte_count(files: &[FileEntry]) -> u64
    requires { sum_by bytes_of files.now < 2 ^ 64 }
    ensures { result ≡ sum_by bytes_of files.now }
{
    let mut count = 0;
    for file in files {
        count += bytes_in(file);
    }
    count
}

fn bytes_in(file: &FileEntry) -> u64
    requires { bytes_of file.now < 2 ^ 64 }
    ensures { result ≡ bytes_of file.now }
{
    file.segments
        .as_slice()
        .iter()
        .map(|segment| segment.bytes)
        .sum()
}
