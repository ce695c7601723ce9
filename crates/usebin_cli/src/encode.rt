// The command `encode`.
ghost use Rattle.std.specs.Prelude.{◌≡◌, ◌≤◌, None};
ghost use Rattle.command_words.specs.Asked.{asked_of, IsEncodeAllowed};
ghost use Rattle.command_words.specs.CommandLine.Words.{Asks};
ghost use Rattle.command_words.specs.CommandLine.Command.{Encode};
ghost use Rattle.input_files.specs.Reading.{reading};
ghost use Rattle.usebin_cli.specs.Encode.{Encodes, IsPartOrLimit};
ghost use Rattle.usebin_cli.specs.Run.{HasEnded};
ghost use Rattle.usebin_cli.specs.Steps.{ReadsPart};
ghost use Rattle.usebin_cli.specs.Writing.{written};

use crate::body::write_body;
use command_words::EncodeWords;
use input_files::{ReadError, read_part};
use io_traits::{Failed, Input, Sink};
use limits::{MOST_FILE_BYTES, MOST_SEGMENTS};
use lists::Bytes;
use run_ends::{End, Limit};
use std::alloc::Global;
use yenc_body::{BodySpec, parts_of};
use yenc_text::{closing_of, opening_of};

// A part of a file that was read: which one, and its bytes.
#[derive(Drop)]
struct AskedPart {
    spec: BodySpec,
    content: Bytes,
}

/// Writes the body of the asked part of a file, as a text that is made in pieces: all memory is taken before the first write.
pub(crate) fn encode<I: Input, O: Sink>(
    alloc: Global,
    asked: EncodeWords<'_>,
    input: &mut I,
    out: &mut O,
) -> End
    requires { IsEncodeAllowed asked }
    ensures ended { HasEnded (Asks (Encode (asked_of asked.entry))) (reading I.Input input.old input.new) (written O.Sink out.old out.new) None result }
    ensures so { Encodes (asked_of asked.entry) (I.files input.old) (reading I.Input input.old input.new) (written O.Sink out.old out.new) result }
{
    let part = match read_asked(alloc, asked, input) {
        Ok(part) => part,
        Err(end) => return end,
    };
    let content = part.content.as_slice();
    let Ok(opening) = opening_of(alloc, &part.spec, content) else {
        return End::NoMemory;
    };
    let Ok(closing) = closing_of(alloc, &part.spec, content) else {
        return End::NoMemory;
    };
    match write_body(
        &part.spec,
        content,
        opening.as_slice(),
        closing.as_slice(),
        out,
    ) {
        Ok(()) => End::Done,
        Err(Failed) => End::OutputFault,
    }
}

// Reads the asked part of a file, and no other byte of it.
fn read_asked<I: Input>(
    alloc: Global,
    asked: EncodeWords<'_>,
    input: &mut I,
) -> Result<AskedPart, End>
    requires { IsEncodeAllowed asked }
    ensures { ReadsPart (asked_of asked.entry) (I.files input.old) (reading I.Input input.old input.new) result }
{
    let path = asked.path;
    let part_size = u64::from(asked.part_size);
    let Ok(size) = input.open(path) else {
        return Err(End::InputFault);
    };
    let spec = match spec_of(asked, size) {
        Ok(spec) => spec,
        Err(limit) => return Err(End::Limit(limit)),
    };
    let place = spec.first - 1;
    let len = part_size.min(size - place) as usize;
    match read_part(alloc, place, len, input) {
        Ok(content) => Ok(AskedPart { spec, content }),
        Err(ReadError::Memory) => Err(End::NoMemory),
        Err(ReadError::Fault) => Err(End::InputFault),
        Err(ReadError::Short(place)) => Err(End::Short(place)),
        Err(ReadError::TooLong) => unreachable!(),
    }
}

// The asked part of a file of this length, or why it isn't made.
fn spec_of(asked: EncodeWords<'_>, size: u64) -> Result<BodySpec, Limit>
    requires { IsEncodeAllowed asked }
    ensures { IsPartOrLimit (asked_of asked.entry) size result }
{
    if size > MOST_FILE_BYTES {
        return Err(Limit::File);
    }
    let parts = parts_of(size, asked.part_size as u64);
    if parts > MOST_SEGMENTS as u64 {
        return Err(Limit::Segments);
    }
    let total = parts as u32;
    if asked.part > total {
        return Err(Limit::Part(total));
    }
    let place = u64::from(asked.part - 1) * u64::from(asked.part_size);
    Ok(BodySpec {
        name: asked.name,
        part: asked.part,
        total,
        first: place + 1,
        size,
        line: asked.line,
    })
}
