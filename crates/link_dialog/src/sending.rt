// A message sent whole, by as many sends as it takes.
ghost use Rattle.std.specs.Prelude.{◌≡◌, ◌≤◌, ◌<◌, Some, true, false, slice_get, slice_set, length, OnOk, OnErr, IfErr, MatchResult};
ghost use Rattle.link_dialog.specs.Sending.{SentWhole, SentInPart};

use crate::Cut;
use io_traits::{Failed, Links};

/// Sends all of the bytes, or as many as go out before the link ends.
pub fn send_whole<L: Links>(links: &mut L, link: u32, bytes: &[u8]) -> Result<(), Cut>
    requires live { slice_get (L.live links.old) link ≡ Some true }
    ensures faults { L.faults links.old ≤ L.faults links.new }
    ensures live { OnOk result (L.live links.new ≡ L.live links.old) }
    ensures lost { OnErr result (L.live links.new ≡ slice_set (L.live links.old) link false) }
    ensures sent { MatchResult result
        (λ _. SentWhole (L.trace links.old) (L.trace links.new) link bytes.now)
        (λ cut. SentInPart (L.trace links.old) (L.trace links.new) link bytes.now cut.sent) }
{
    let mut done = 0;
    while done < bytes.len() {
        match links.send(link, &bytes[done..]) {
            Ok(n) => done += n,
            Err(Failed) => return Err(Cut { sent: done }),
        }
    }
    Ok(())
}
