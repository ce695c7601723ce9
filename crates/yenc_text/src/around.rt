// The text before the data lines of a body, and the one behind them.
ghost use Rattle.std.specs.Prelude.{◌≡◌, ◌≤◌, ◌++◌, length, IfOk, OnOk};
ghost use Rattle.limits.specs.declared.TheConstants.{MOST_FILE_BYTES};
ghost use Rattle.yenc_body.specs.Canonical.{header, part_line, IsPart};
ghost use Rattle.yenc_text.specs.Text.{closing, ended, opening};

use limits::MOST_KEYWORD_BYTES;
use lists::{Bytes, Memory};
use std::alloc::Global;
use yenc_body::{BodySpec, put_header, put_part_line, put_trailer};

/// The text before the data lines of the body of a part's bytes: the header line, and the part line of one part of several
/// (yEnc draft 1.3, "Headers and Trailers" and "Multi-part Encoded Binaries").
pub fn opening_of(alloc: Global, spec: &BodySpec, bytes: &[u8]) -> Result<Bytes, Memory>
    requires { IsPart spec.now (length bytes.now) }
    ensures { IfOk result (λ text. text ≡ opening spec.now bytes.now) }
{
    let mut text = Bytes::new(alloc);
    push_opening(spec, bytes, &mut text)?;
    Ok(text)
}

/// The text behind the data lines of the body of a part's bytes: the trailer line (yEnc draft 1.3, "Headers and Trailers" and
/// "Verifying Integrity").
pub fn closing_of(alloc: Global, spec: &BodySpec, bytes: &[u8]) -> Result<Bytes, Memory>
    requires { IsPart spec.now (length bytes.now) }
    ensures { IfOk result (λ text. text ≡ closing spec.now bytes.now) }
{
    let mut text = Bytes::new(alloc);
    push_closing(spec, bytes, &mut text)?;
    Ok(text)
}

/// Appends the text before the data lines of the body of a part's bytes, as `opening_of` makes it. Where memory runs out, a
/// front of it may stand there. It takes memory for the name, too.
pub fn push_opening(spec: &BodySpec, bytes: &[u8], text: &mut Bytes) -> Result<(), Memory>
    requires { IsPart spec.now (length bytes.now) }
    ensures { OnOk result (text.new ≡ text.old ++ opening spec.now bytes.now) }
{
    push_header(spec, text)?;
    if spec.total != 1 {
        push_part_line(spec, bytes, text)?;
    }
    Ok(())
}

/// Appends the text behind the data lines of the body of a part's bytes, as `closing_of` makes it. Where memory runs out, a
/// front of it may stand there.
pub fn push_closing(spec: &BodySpec, bytes: &[u8], text: &mut Bytes) -> Result<(), Memory>
    requires { IsPart spec.now (length bytes.now) }
    ensures { OnOk result (text.new ≡ text.old ++ closing spec.now bytes.now) }
{
    let mut line = [0; MOST_KEYWORD_BYTES];
    let len = put_trailer(spec, bytes, &mut line);
    push_line(&line[..len], text)
}

fn push_header(spec: &BodySpec, text: &mut Bytes) -> Result<(), Memory>
    requires part { 1 ≤ spec.now.part }
    requires size { spec.now.size ≤ MOST_FILE_BYTES }
    ensures { OnOk result (text.new ≡ text.old ++ ended (header spec.now)) }
{
    let mut line = [0; MOST_KEYWORD_BYTES];
    let len = put_header(spec, &mut line)?;
    push_line(&line[..len], text)
}

fn push_part_line(spec: &BodySpec, bytes: &[u8], text: &mut Bytes) -> Result<(), Memory>
    requires { IsPart spec.now (length bytes.now) }
    ensures { OnOk result (text.new ≡ text.old ++ ended (part_line spec.now bytes.now)) }
{
    let mut line = [0; MOST_KEYWORD_BYTES];
    let len = put_part_line(spec, bytes, &mut line);
    push_line(&line[..len], text)
}

// Appends a line and its end.
fn push_line(line: &[u8], text: &mut Bytes) -> Result<(), Memory>
    ensures { OnOk result (text.new ≡ text.old ++ ended line.now) }
{
    text.extend(line)?;
    text.extend(b"\r\n")
}
