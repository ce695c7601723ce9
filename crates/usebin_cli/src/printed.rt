// The lines that are printed beside those of ends, each made in one buffer.
ghost use Rattle.std.specs.Prelude.{◌≡◌, ◌≤◌, ◌+◌, ◌++◌, take};
ghost use Rattle.usebin_cli.specs.Check.{counts_text};
ghost use Rattle.usebin_cli.specs.Index.{skipped_line};
ghost use Rattle.usebin_cli.specs.PostText.{end_line, end_text};
ghost use Rattle.usebin_cli.specs.Printed.{range_line};

use crate::check::Counts;
use numbers::{put, put_number};
use poster::PartEnd;
use run_ends::{LineBuffer, put_code};
use yenc_body::Part;

/// Writes the line of a part's range to the front of a buffer, and answers its length.
#[tactic(auto, unfolding(crate::specs::Printed::range_line))]
pub(crate) fn write_range(part: &Part, out: &mut LineBuffer) -> usize
    ensures text { take result out.new ≡ range_line part.now }
    ensures room { result ≤ 160 }
{
    let at = put(out, 0, b"range ");
    let at = put_number(out, at, part.first);
    let at = put(out, at, b"-");
    let at = put_number(out, at, part.last);
    let at = put(out, at, b" of ");
    let at = put_number(out, at, part.begin.size);
    put(out, at, b"\n")
}

/// Writes the lines of an index's counts to the front of a buffer, and answers their length.
#[tactic(auto, unfolding(crate::specs::Check::counts_text))]
pub(crate) fn write_counts(counts: Counts, out: &mut LineBuffer) -> usize
    ensures text { take result out.new ≡ counts_text counts }
    ensures room { result ≤ 160 }
{
    let at = put(out, 0, b"files ");
    let at = put_number(out, at, counts.files);
    let at = put(out, at, b"\nsegments ");
    let at = put_number(out, at, counts.segments);
    let at = put(out, at, b"\nbytes ");
    let at = put_number(out, at, counts.bytes);
    put(out, at, b"\n")
}

/// Writes the line of what became of a part to the front of a buffer, and answers its length.
#[tactic(auto, unfolding(crate::specs::PostText::end_line))]
pub(crate) fn write_end(number: u64, end: PartEnd, out: &mut LineBuffer) -> usize
    ensures text { take result out.new ≡ end_line number end }
    ensures room { result ≤ 160 }
{
    let at = put(out, 0, b"part ");
    let at = put_number(out, at, number);
    let at = put(out, at, b" ");
    let at = put_end(out, at, end);
    put(out, at, b"\n")
}

/// Writes the line of how many lines of an overview were skipped to the front of a buffer, and answers its length.
#[tactic(auto, unfolding(crate::specs::Index::skipped_line))]
pub(crate) fn write_skipped(skipped: u64, out: &mut LineBuffer) -> usize
    ensures text { take result out.new ≡ skipped_line skipped }
    ensures room { result ≤ 160 }
{
    let at = put(out, 0, b"skipped ");
    let at = put_number(out, at, skipped);
    put(out, at, b"\n")
}

// Puts what became of a part.
fn put_end(out: &mut LineBuffer, at: usize, end: PartEnd) -> usize
    requires { at + 64 ≤ 160 }
    ensures text { take result out.new ≡ take at out.old ++ end_text end }
    ensures end { result ≤ at + 64 }
{
    match end {
        PartEnd::Posted => put(out, at, b"posted"),
        PartEnd::Refused(code) => put_code(out, at, b"refused", code),
        PartEnd::Unsure => put(out, at, b"unsure"),
        PartEnd::NotSent => put(out, at, b"notsent"),
    }
}
