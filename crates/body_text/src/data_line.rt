// One data line, decoded in place.
ghost use Rattle.std.specs.Prelude.{◌≡◌, ◌≤◌, ◌<◌, ◌+◌, ℕ, length, slice_index, false};
ghost use Rattle.landing_kernel.specs.Characters.{is_critical};
ghost use Rattle.landing_kernel.specs.Landing.{Lands};
ghost use Rattle.yenc_body.specs.ReadBody.{reason_of};
ghost use Rattle.yenc_bytes.specs.DataLine.{column_of};
ghost use Rattle.body_text.specs.DataPlaces.{DecodesLine};

use landing_kernel::land;
use yenc_body::{Reason, Refusal};
use yenc_bytes::{LineFault, read_spelling};

/// Puts the bytes of the data line between two places of a buffer to the places from `to` on, which is not behind the line, where
/// there is room for so many in the part, and answers how many there are. What follows the line stays as it is.
pub(crate) fn decode_in_place(
    buf: &mut [u8],
    start: usize,
    stop: usize,
    to: usize,
    room: u64,
) -> Result<usize, Refusal>
    requires { (to ≤ start) × (start ≤ stop) × (stop ≤ length buf.old) }
    ensures { DecodesLine buf.old buf.new start stop to room result }
{
    are_bytes(buf);
    let mut at = start;
    let mut put = to;
    let mut left = room;
    while at < stop {
        let plain = land_run(buf, at, stop, put, left);
        at += plain;
        put += plain;
        left -= plain as u64;
        if at == stop {
            return Ok(put - to);
        }
        let (byte, width) = match read_spelling(&buf[start..stop], at - start) {
            Ok(spelling) => spelling,
            Err(fault) => return Err(refused(fault)),
        };
        if left == 0 {
            return Err(Refusal {
                column: (at - start) as u64 + 1,
                reason: Reason::TooMany,
            });
        }
        buf[put] = byte;
        put += 1;
        at += width;
        left -= 1;
    }
    Ok(put - to)
}

/// A buffer's numbers are bytes.
#[inline(always)]
pub(crate) fn are_bytes(buf: &[u8])
    ensures { (i : ℕ) → slice_index buf.now i < 256 }
{
    let _ = buf;
}

// Lands the characters up to the next one that is critical, at the line's end at the latest, and no more than there is room for in the
// part, and answers how many there are.
fn land_run(buf: &mut [u8], at: usize, stop: usize, to: usize, left: u64) -> usize
    requires { (to ≤ at) × (at ≤ stop) × (stop ≤ length buf.old) }
    ensures inside { at + result ≤ stop }
    ensures left { result ≤ left }
    ensures landed { Lands buf.old buf.new at to result }
    ensures plain { (k : ℕ) → k < result → is_critical (slice_index buf.old (at + k)) ≡ false }
{
    land(buf, at, to, run_end(at, stop, left))
}

// Where a run ends at the latest: at the line's end, or where no room is left in the part.
fn run_end(at: usize, stop: usize, left: u64) -> usize
    requires { at ≤ stop }
    ensures order { (at ≤ result) × (result ≤ stop) }
    ensures room { result ≤ at + left }
    ensures whole { result < stop → result ≡ at + left }
{
    if left < (stop - at) as u64 {
        at + left as usize
    } else {
        stop
    }
}

fn refused(fault: LineFault) -> Refusal
    ensures column { result.column ≡ column_of fault }
    ensures reason { result.reason ≡ reason_of fault }
{
    match fault {
        LineFault::Stray { column, .. } => Refusal {
            column,
            reason: Reason::Stray,
        },
        LineFault::LoneEscape { column } => Refusal {
            column,
            reason: Reason::LoneEscape,
        },
    }
}
