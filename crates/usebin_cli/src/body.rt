// The text of the body of a part, written a piece at a time.
ghost use Rattle.std.specs.Prelude.{◌≡◌, ◌≤◌, MatchResult};
ghost use Rattle.usebin_cli.specs.Body.{WroteBody, WroteData};
ghost use Rattle.usebin_cli.specs.Writing.{written, WroteFront, WroteWhole};
ghost use Rattle.yenc_text.specs.Text.{closing as text_behind, opening as text_before};
ghost use Rattle.limits.specs.declared.TheConstants.{LEAST_LINE, MOST_LINE};

use crate::writing::write_all;
use io_traits::{Failed, Sink};
use yenc_body::BodySpec;
use yenc_text::{PIECE, fill_piece};

/// Writes the text of the body of a part's bytes, for which what stands before its data lines and behind them is made
/// already: it takes no memory.
pub(crate) fn write_body<O: Sink>(
    spec: &BodySpec,
    content: &[u8],
    opening: &[u8],
    closing: &[u8],
    out: &mut O,
) -> Result<(), Failed>
    requires least { LEAST_LINE ≤ spec.now.line }
    requires most { spec.now.line ≤ MOST_LINE }
    requires opening { opening.now ≡ text_before spec.now content.now }
    requires closing { closing.now ≡ text_behind spec.now content.now }
    ensures { let w = written O.Sink out.old out.new in
        MatchResult result (λ _. WroteBody WroteWhole spec.now content.now w) (λ _. WroteBody WroteFront spec.now content.now w) }
{
    match write_all(out, opening) {
        Ok(()) => match write_data(content, spec.line, out) {
            Ok(()) => write_all(out, closing),
            Err(Failed) => Err(Failed),
        },
        Err(Failed) => Err(Failed),
    }
}

// Writes the text of the data lines of a part's bytes.
fn write_data<O: Sink>(content: &[u8], line: u16, out: &mut O) -> Result<(), Failed>
    requires least { LEAST_LINE ≤ line }
    requires most { line ≤ MOST_LINE }
    ensures { let w = written O.Sink out.old out.new in
        MatchResult result (λ _. WroteData WroteWhole line content.now w) (λ _. WroteData WroteFront line content.now w) }
{
    let mut piece = [0; PIECE];
    let mut at = 0;
    while at < content.len() {
        let left = content.split_at(at).1;
        let (used, len) = fill_piece(left, line, &mut piece);
        match write_all(out, &piece[..len]) {
            Ok(()) => at += used,
            Err(Failed) => return Err(Failed),
        }
    }
    Ok(())
}
