// A newsgroup chosen, and the overview of one range of its articles asked for (RFC 3977, 6.1.1 and 8.3).
ghost use Rattle.std.specs.Prelude.{◌≡◌, ◌≤◌, ◌<◌, ◌==◌, ◌||◌, ◌++◌, ◌∷◌, [], length, slice_get, Some, true, List, Option, IfOk, IfErr};
ghost use Rattle.nntp_lines.specs.Command.{IsArticleNumber};
ghost use Rattle.link_dialog.specs.Dialog.{Message};
ghost use Rattle.link_dialog.specs.Replies.{Reply};
ghost use Rattle.link_dialog.specs.Talk.{Start, Rests, Talked, link_of_dialog, patience_of, quit_message};
ghost use Rattle.overview_index.specs.Session.{Query};
ghost use Rattle.overview_index.specs.Asking.{AskedKeepsLive, HasBegun, ChooseEnds, ComesOnLink, IsRangeAsked, KeepsLiveIf, StandsAt};

use crate::IndexError;
use io_traits::Links;
use link_dialog::{Answer, Awaited, Dialog, GroupAnswer};
use lists::Bytes;
use nntp_lines::{Command, GroupName, GroupReply, Why, write_command};

// What is said of a newsgroup that was chosen, and whether the link is live behind that.
#[derive(Clone, Copy)]
pub(crate) struct Chosen {
    pub(crate) group: GroupReply,
    pub(crate) live: bool,
}

// What came of asking for a range.
#[derive(Clone, Copy)]
pub(crate) enum Asked {
    // The reply has this code, and the next range may be asked where the link is live. There was room for the block, or not.
    Heard { code: u16, kept: bool, live: bool },
    // OVER was refused with this code, and the dialog is done.
    Refused(u16),
    // The link is over for this reason, and the range has no reply.
    Over(Why),
}

// Says GROUP. Where that is refused it says QUIT.
pub(crate) fn choose<L: Links>(
    dialog: Dialog,
    links: &mut L,
    group: &GroupName,
) -> Result<Chosen, IndexError>
    requires { slice_get (L.live links.old) (link_of_dialog dialog) ≡ Some true }
    ensures faults { L.faults links.old ≤ L.faults links.new }
    ensures live { IfOk result (λ chosen. KeepsLiveIf (L.live links.old) (L.live links.new) chosen.live) }
    ensures linked { IfErr result ComesOnLink }
    ensures ends { (q : Query) (start : Start) → q.group ≡ group.now → HasBegun q start (L.trace links.old) dialog → ChooseEnds q start (L.trace links.new) dialog result }
{
    let mut line = [0; 512];
    let len = write_command(Command::Group(group), &mut line);
    match dialog.say(links, &line[..len]) {
        Ok(()) => {}
        Err(_) => return Err(IndexError::Over(Why::Ended)),
    }
    match dialog.hear_group(links) {
        GroupAnswer::Chosen(group) => Ok(Chosen { group, live: true }),
        GroupAnswer::ChosenUnasked(group) => Ok(Chosen { group, live: false }),
        GroupAnswer::Code(code) => {
            dialog.quit(links);
            Err(IndexError::Refused(code))
        }
        GroupAnswer::Unasked(code) => Err(IndexError::Refused(code)),
        GroupAnswer::Over(why) => Err(IndexError::Over(why)),
    }
}

// Says OVER for a range, and hears its reply. Where that is refused it says QUIT.
pub(crate) fn ask<L: Links>(
    dialog: Dialog,
    links: &mut L,
    first: u64,
    last: u64,
    buf: &mut [u8],
    block: &mut Bytes,
) -> Asked
    requires live { slice_get (L.live links.old) (link_of_dialog dialog) ≡ Some true }
    requires order { first ≤ last }
    requires numbers { IsArticleNumber last }
    requires room { 0 < length buf.old }
    ensures faults { L.faults links.old ≤ L.faults links.new }
    ensures live { AskedKeepsLive (L.live links.old) (L.live links.new) result }
    ensures asked { (start : Start) (messages : List Message) (replies : List Reply) →
        Rests start (L.trace links.old) dialog messages replies →
        IsRangeAsked start (L.trace links.new) dialog messages (record { first = first; last = last }) replies block.new result }
{
    let mut line = [0; 512];
    let len = write_command(Command::Over { first, last }, &mut line);
    match dialog.say(links, &line[..len]) {
        Ok(()) => {}
        Err(_) => return Asked::Over(Why::Ended),
    }
    let heard = dialog.hear_block(links, Awaited::Over, buf, block);
    let kept = heard.kept;
    match heard.answer {
        Answer::Code(code) => {
            if goes_on(code) {
                let live = true;
                return Asked::Heard { code, kept, live };
            }
            dialog.quit(links);
            Asked::Refused(code)
        }
        Answer::Unasked(code) => {
            if goes_on(code) {
                let live = false;
                return Asked::Heard { code, kept, live };
            }
            Asked::Refused(code)
        }
        Answer::Over(why) => Asked::Over(why),
    }
}

// Says QUIT where the link is live.
pub(crate) fn quit<L: Links>(dialog: Dialog, links: &mut L, live: bool)
    requires { live ≡ true → slice_get (L.live links.old) (link_of_dialog dialog) ≡ Some true }
    ensures faults { L.faults links.old ≤ L.faults links.new }
    ensures quits { (start : Start) (messages : List Message) (replies : List Reply) →
        StandsAt start (L.trace links.old) dialog messages replies live →
        Talked start (L.trace links.new) (patience_of dialog) (messages ++ quit_message ∷ []) replies }
{
    if live {
        dialog.quit(links);
    }
}

// Whether the next range may be asked after a reply with this code: an overview, or no article in the range.
fn goes_on(code: u16) -> bool
    ensures { result ≡ (code == 224) || (code == 423) }
{
    code == 224 || code == 423
}
