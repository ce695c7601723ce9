// The lines before the data lines.
ghost use Rattle.std.specs.Prelude.{◌≡◌, ◌≤◌, ◌<◌, ◌+◌, ◌^◌, ℕ, [], length, drop, Ok, Err, IfOk, IfErr};
ghost use Rattle.lists.specs.Text.{text_lines};
ghost use Rattle.yenc_body.specs.BodyReading.{ended_at, fault_at as fault_of, line_of};
ghost use Rattle.yenc_body.specs.ReadBody.{IsInFile};
ghost use Rattle.yenc_body.specs.Staged.{Finds, place_with};
ghost use Rattle.yenc_body.specs.declared.place.Place.TheVariants.{Filling};
ghost use Rattle.body_text.specs.Standing.{EndsIn, IsBeforeData, StandsAt};

use crate::line_ends::line_end;
use yenc_body::{Fault, Head, Reason, Refusal, Stage, read_opening, read_range};

/// Where the data lines of a text begin, and what the lines before them say of the part.
pub(crate) struct DataStart {
    pub head: Head,
    /// The place behind the line that fixes the range.
    pub at: usize,
    /// How many lines stand before it.
    pub lines: u64,
}

/// Reads the lines up to the one that fixes the range.
pub(crate) fn read_head(text: &[u8]) -> Result<DataStart, Fault>
    ensures stands { IfOk result (λ start. StandsAt (text_lines text.now) (text_lines (drop start.at text.now)) (Filling start.head.begin start.head.first start.head.last []) start.lines) }
    ensures in_file { IfOk result (λ start. IsInFile (Filling start.head.begin start.head.first start.head.last [])) }
    ensures within { IfOk result (λ start. (start.at ≤ length text.now) × (start.lines ≤ start.at)) }
    ensures fault { IfErr result (EndsIn (text_lines text.now)) }
{
    let mut stage = Stage::Opening;
    let mut at = 0;
    let mut lines = 0;
    while at < text.len() {
        let end = line_end(text, at);
        stage = match read_stage(stage, &text[at..end.stop]) {
            Ok(next) => next,
            Err(refusal) => return Err(fault_at(lines, refusal)),
        };
        lines += 1;
        at = end.next;
        if let Stage::Filling(head) = stage {
            return Ok(DataStart { head, at, lines });
        }
    }
    Err(fault_at(
        lines,
        Refusal {
            column: 1,
            reason: lack(stage),
        },
    ))
}

// What lines lack that end at a stage.
fn lack(stage: Stage) -> Reason
    ensures { (lines : ℕ) → ended_at lines (Ok (place_with stage [])) ≡ Err (fault_of (lines + 1) 1 result) }
{
    match stage {
        Stage::Opening => Reason::NoBegin,
        Stage::Opened(_, _) => Reason::NoPart,
        Stage::Filling(_) => Reason::NoEnd,
    }
}

// What one line before the data lines leads to.
fn read_stage(stage: Stage, line: &[u8]) -> Result<Stage, Refusal>
    requires before { IsBeforeData stage }
    requires in_file { IsInFile (place_with stage []) }
    ensures finds { Finds (line_of (place_with stage []) line.now) result }
    ensures in_file { IfOk result (λ next. IsInFile (place_with next [])) }
{
    match stage {
        Stage::Opening => read_opening(line),
        Stage::Opened(begin, part) => read_range(begin, part, line),
        Stage::Filling(_) => unreachable!(),
    }
}

/// The fault of the line behind so many lines.
pub(crate) fn fault_at(lines: u64, refusal: Refusal) -> Fault
    requires { lines + 1 < 2 ^ 64 }
    ensures { result ≡ fault_of (lines + 1) refusal.column refusal.reason }
{
    Fault {
        line: lines + 1,
        column: refusal.column,
        reason: refusal.reason,
    }
}
