// A text, decoded in place.
ghost use Rattle.std.specs.Prelude.{◌≡◌, ◌≤◌, ◌<◌, [], List, ℕ, length, slice_index, take, drop, true, codes, nat_eq, Ok, Err, MatchResult};
ghost use Rattle.std.specs.List.{starts_with};
ghost use Rattle.lists.specs.Text.{text_lines};
ghost use Rattle.yenc_body.specs.declared.part.Part.{Part};
ghost use Rattle.yenc_body.specs.declared.fault.Fault.{Fault};
ghost use Rattle.yenc_body.specs.Body.{IsBody};
ghost use Rattle.yenc_body.specs.FirstFault.{IsFirstFault};
ghost use Rattle.yenc_body.specs.ReadBody.{IsInFile};
ghost use Rattle.yenc_body.specs.declared.place.Place.TheVariants.{Filling};
ghost use Rattle.yenc_body.specs.BodyReading.{line_of};
ghost use Rattle.yenc_body.specs.Staged.{Closes};
ghost use Rattle.body_text.specs.DataPlaces.{between};
ghost use Rattle.body_text.specs.Standing.{ReadsData, ReadsText, StandsAt};

use crate::data_line::{are_bytes, decode_in_place};
use crate::line_ends::line_end;
use crate::opening::{DataStart, fault_at, read_head};
use lists::Bytes;
use yenc_body::{Fault, Head, Part, Reason, Refusal, trailer_fault, whole_line};

/// Decodes the body that the lines of a saved text are, of a whole file or of one part of several (yEnc draft 1.3), in the text's
/// own memory: lines before the header line are passed over, and so is what follows the trailer line. Lines that are no body are
/// refused for their first fault.
pub fn decode_text(text: Bytes) -> Result<Part, Fault>
    ensures answer { MatchResult result (IsBody (text_lines text)) (IsFirstFault (text_lines text)) }

    // No body is refused, and no lines with a fault are read to a part.
    ensures each_body { (p : Part) → IsBody (text_lines text) p → result ≡ Ok p }
    ensures each_fault { (f : Fault) → IsFirstFault (text_lines text) f → result ≡ Err f }
{
    let mut buf = text.into_vec();
    match decode_lines(&mut buf) {
        Ok((head, count)) => {
            buf.truncate(count);
            Ok(part_of(head, Bytes::from_vec(buf)))
        }
        Err(fault) => Err(fault),
    }
}

fn part_of(head: Head, content: Bytes) -> Part
    ensures { result ≡ record { begin = head.begin; first = head.first; last = head.last; content = content } }
{
    let Head { begin, first, last } = head;
    Part {
        begin,
        first,
        last,
        content,
    }
}

// Decodes the lines of a text, and answers what is said of the part before its bytes, and how many these are, which are then the first of
// the buffer.
fn decode_lines(buf: &mut [u8]) -> Result<(Head, usize), Fault>
    ensures bytes { (i : ℕ) → slice_index buf.old i < 256 }
    ensures reads { ReadsText (text_lines buf.old) buf.new result }
{
    are_bytes(buf);
    let start = match read_head(buf) {
        Ok(start) => start,
        Err(fault) => return Err(fault),
    };
    let DataStart { head, at, lines } = start;
    match decode_data(buf, &head, at, lines) {
        Ok(count) => Ok((head, count)),
        Err(fault) => Err(fault),
    }
}

// Decodes the data lines from a place on, behind so many lines, up to the trailer line, and answers how many bytes they have, which
// are then the first of the buffer.
fn decode_data(buf: &mut [u8], head: &Head, from: usize, before: u64) -> Result<usize, Fault>
    requires place { from ≤ length buf.old }
    requires lines { before ≤ from }
    requires in_file { IsInFile (Filling head.now.begin head.now.first head.now.last []) }
    ensures { (all : List (List ℕ)) → StandsAt all (text_lines (drop from buf.old)) (Filling head.now.begin head.now.first head.now.last []) before → ReadsData all head.now buf.new result }
{
    let wanted = head.last + 1 - head.first;
    let mut at = from;
    let mut put = 0;
    let mut lines = before;
    while at < buf.len() {
        let end = line_end(buf, at);
        if buf[at..end.stop].starts_with(b"=y") {
            return match fault_between(head, buf, put, at, end.stop) {
                None => Ok(put),
                Some(refusal) => Err(fault_at(lines, refusal)),
            };
        }
        match decode_in_place(buf, at, end.stop, put, wanted - put as u64) {
            Ok(count) => put += count,
            Err(refusal) => return Err(fault_at(lines, refusal)),
        }
        lines += 1;
        at = end.next;
    }
    Err(fault_at(lines, whole_line(Reason::NoEnd)))
}

// What the keyword line between two places is refused for, behind the part's bytes, which are the first of the buffer.
fn fault_between(
    head: &Head,
    buf: &[u8],
    count: usize,
    start: usize,
    stop: usize,
) -> Option<Refusal>
    requires places { (count ≤ start) × (start ≤ stop) × (stop ≤ length buf.now) }
    requires in_file { IsInFile (Filling head.now.begin head.now.first head.now.last (take count buf.now)) }
    requires keyword { starts_with nat_eq (between buf.now start stop) (codes "=y") ≡ true }
    ensures { Closes head.now.begin head.now.first head.now.last (take count buf.now) (line_of (Filling head.now.begin head.now.first head.now.last (take count buf.now)) (between buf.now start stop)) result }
{
    let bytes = &buf[..count];
    trailer_fault(&head.begin, head.first, head.last, bytes, &buf[start..stop])
}
