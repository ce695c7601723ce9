// Writing a text whole.
ghost use Rattle.std.specs.Prelude.{MatchResult};
ghost use Rattle.usebin_cli.specs.Writing.{written, Got, WroteWhole, WroteFront};

use io_traits::{Failed, Sink};

/// Writes all bytes, in as few writes as the sink takes.
pub(crate) fn write_all<O: Sink>(out: &mut O, bytes: &[u8]) -> Result<(), Failed>
    ensures { MatchResult result (λ _. WroteWhole bytes.now (written O.Sink out.old out.new)) (λ _. WroteFront bytes.now (written O.Sink out.old out.new)) }
{
    let mut at = 0;
    while at < bytes.len() {
        at += out.write(&bytes[at..])?;
    }
    Ok(())
}

/// Writes a text, or a front of it where the sink fails.
pub(crate) fn say<O: Sink>(out: &mut O, text: &[u8])
    ensures { Got text.now (written O.Sink out.old out.new) }
{
    let _ = write_all(out, text);
}
