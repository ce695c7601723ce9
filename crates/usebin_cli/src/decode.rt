// The command `decode`.
ghost use Rattle.std.specs.Prelude.{◌≡◌};
ghost use Rattle.command_words.specs.Asked.{body_asked};
ghost use Rattle.command_words.specs.CommandLine.Words.{Asks};
ghost use Rattle.command_words.specs.CommandLine.Command.{Decode};
ghost use Rattle.command_words.specs.declared.keys.Form.TheVariants.{File, Wire};
ghost use Rattle.input_files.specs.Reading.{reading};
ghost use Rattle.usebin_cli.specs.Decode.{Decodes, ReadsText};
ghost use Rattle.usebin_cli.specs.Ended.{WritesBehind};
ghost use Rattle.usebin_cli.specs.Printed.{range_line};
ghost use Rattle.usebin_cli.specs.Steps.{FindsPart, Runs};
ghost use Rattle.usebin_cli.specs.Writing.{written};

use crate::ended::{Ended, write_behind};
use crate::printed::write_range;
use crate::reply::reply_lines;
use body_text::decode_text;
use command_words::{DecodeWords, Form};
use input_files::{ReadError, read_file};
use io_traits::{Input, Sink};
use limits::MOST_TEXT_BYTES;
use lists::Bytes;
use run_ends::{End, Limit};
use std::alloc::Global;
use yenc_body::{BodyError, Part, read_body};

/// Writes the bytes of the part whose body was saved in the text at a path, and tells the part's range.
pub(crate) fn decode<I: Input, O: Sink, E: Sink>(
    alloc: Global,
    asked: DecodeWords<'_>,
    input: &mut I,
    out: &mut O,
    err: &mut E,
) -> Ended
    ensures { Runs (Asks (Decode (body_asked asked.entry))) (Decodes (body_asked asked.entry) (I.files input.old) (reading I.Input input.old input.new))
        (reading I.Input input.old input.new) (written O.Sink out.old out.new) (written E.Sink err.old err.new) result }
{
    match saved_part(alloc, asked, input) {
        Ok(part) => write_part(&part, out, err),
        Err(end) => Ended { end, is_told: true },
    }
}

// The part whose body was saved in the text at a path.
fn saved_part<I: Input>(alloc: Global, asked: DecodeWords<'_>, input: &mut I) -> Result<Part, End>
    ensures { FindsPart (body_asked asked.entry) (I.files input.old) (reading I.Input input.old input.new) result }
{
    let text = match read_file(alloc, asked.path, MOST_TEXT_BYTES as u64, input) {
        Ok(text) => text,
        Err(ReadError::Memory) => return Err(End::NoMemory),
        Err(ReadError::Fault) => return Err(End::InputFault),
        Err(ReadError::Short(place)) => return Err(End::Short(place)),
        Err(ReadError::TooLong) => return Err(End::Limit(Limit::Text)),
    };
    read_text(alloc, asked.form, text)
}

// The part whose body was saved in a text.
fn read_text(alloc: Global, form: Form, text: Bytes) -> Result<Part, End>
    ensures { ReadsText form text result }
{
    match form {
        Form::File => read_file_text(text),
        Form::Wire => read_wire_text(alloc, text),
    }
}

// The same of lines of a file: its bytes are left where they are decoded.
fn read_file_text(text: Bytes) -> Result<Part, End>
    ensures { ReadsText File text result }
{
    match decode_text(text) {
        Ok(part) => Ok(part),
        Err(fault) => Err(End::NoBody(fault)),
    }
}

// The same of a reply off the wire. The text's memory is given back before its lines are read.
fn read_wire_text(alloc: Global, text: Bytes) -> Result<Part, End>
    ensures { ReadsText Wire text result }
{
    let lines = match reply_lines(alloc, text.as_slice()) {
        Ok(lines) => lines,
        Err(end) => return Err(end),
    };
    drop(text);
    match read_body(alloc, &lines) {
        Ok(part) => Ok(part),
        Err(BodyError::Memory) => Err(End::NoMemory),
        Err(BodyError::Refused(fault)) => Err(End::NoBody(fault)),
    }
}

// Notes the range of a part, and writes its bytes.
fn write_part<O: Sink, E: Sink>(part: &Part, out: &mut O, err: &mut E) -> Ended
    ensures { WritesBehind (range_line part.now) part.now.content End.Done (written O.Sink out.old out.new) (written E.Sink err.old err.new) result }
{
    let mut line = [0; 160];
    let len = write_range(part, &mut line);
    write_behind(&line[..len], part.content.as_slice(), End::Done, out, err)
}
