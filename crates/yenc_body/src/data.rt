// The bytes of one data line, in a part with so much room.
ghost use Rattle.std.specs.Prelude.{◌≡◌, ◌<◌, ◌≤◌, ◌+◌, ◌++◌, length, OnOk, IfErr};
ghost use Rattle.landing_kernel.specs.Lowering.{Lowers};
ghost use Rattle.yenc_bytes.specs.DataLine.{column_of};
ghost use Rattle.yenc_body.specs.declared.step.StepError.TheVariants as step;
ghost use Rattle.yenc_body.specs.ReadBody.{Fills, reason_of};

use crate::Reason;
use crate::step::StepError;
use landing_kernel::lower;
use lists::{Bytes, Memory};
use yenc_bytes::{LineFault, read_spelling};

// How many bytes are appended at once. In the buffer for them is room for a block of the kernel behind these.
const FULL: usize = 256;

const BUFFER: usize = 288;

/// Appends the bytes of a data line, for which there is so much room. After a refusal some of them may have been appended.
pub(crate) fn append_data(line: &[u8], room: u64, content: &mut Bytes) -> Result<(), StepError>
    ensures { Fills room line.now content.old content.new result }
{
    let mut buffer = [0; BUFFER];
    let mut len = 0;
    let mut at = 0;
    let mut left = room;
    while at < line.len() {
        let plain = lower_run(line, at, left, &mut buffer, len);
        at += plain;
        len += plain;
        left -= plain as u64;
        if at == line.len() {
            return append(content, &buffer[..len]);
        }
        let (byte, width) = match read_spelling(line, at) {
            Ok(spelling) => spelling,
            Err(fault) => return Err(refused(fault)),
        };
        if left == 0 {
            return Err(StepError::Refused(at as u64 + 1, Reason::TooMany));
        }
        buffer[len] = byte;
        len += 1;
        at += width;
        left -= 1;
        if len >= FULL {
            append(content, &buffer[..len])?;
            len = 0;
        }
    }
    append(content, &buffer[..len])
}

fn append(content: &mut Bytes, more: &[u8]) -> Result<(), StepError>
    ensures ok { OnOk result (content.new ≡ content.old ++ more.now) }
    ensures err { IfErr result (λ error. error ≡ step.Memory) }
{
    match content.extend(more) {
        Ok(()) => Ok(()),
        Err(Memory) => Err(StepError::Memory),
    }
}

// Puts the bytes of the next characters that are no escapes behind those of a buffer, and answers how many: no more than there is
// room for in the part and in the buffer.
fn lower_run(line: &[u8], at: usize, left: u64, buffer: &mut [u8; BUFFER], len: usize) -> usize
    requires inside { at < length line.now }
    requires room { len ≤ 256 }
    ensures inside { at + result ≤ length line.now }
    ensures room { len + result ≤ 256 }
    ensures left { result ≤ left }
    ensures lowered { Lowers line.now buffer.old buffer.new at len result }
{
    let most = (line.len() - at).min(FULL - len);
    let most = if left < most as u64 {
        left as usize
    } else {
        most
    };
    lower(line, at, most, buffer, len)
}

fn refused(fault: LineFault) -> StepError
    ensures { result ≡ step.Refused (column_of fault) (reason_of fault) }
{
    match fault {
        LineFault::Stray { column, .. } => StepError::Refused(column, Reason::Stray),
        LineFault::LoneEscape { column } => StepError::Refused(column, Reason::LoneEscape),
    }
}
