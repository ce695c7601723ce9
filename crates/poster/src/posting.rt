// One article posted over a link (RFC 3977, 6.3.1).
ghost use Rattle.std.specs.Prelude.{◌≡◌, ◌<◌, length, slice_get, Some, true, List, Option};
ghost use Rattle.io_traits.specs.declared.links.LinkEvent.{LinkEvent};
ghost use Rattle.link_dialog.specs.Dialog.{Message};
ghost use Rattle.link_dialog.specs.Replies.{Reply};
ghost use Rattle.link_dialog.specs.Talk.{Start, Rests, link_of_dialog};
ghost use Rattle.poster.specs.Said.{article_end};
ghost use Rattle.poster.specs.Posting.{IsPosting, IsSending, KeepsOpen};

use crate::PartEnd;
use io_traits::Links;
use link_dialog::{Answer, Awaited, Dialog};
use nntp_lines::{Command, Why, write_command};

// How the posting of an article went.
#[derive(Clone, Copy)]
pub(crate) enum Posting {
    // The article has its answer, and the link goes on.
    Answered(PartEnd),
    // POST was refused with this code, and the dialog is done.
    Refused(u16),
    // The link is over for this reason, and no byte of the article went out.
    Unsent(Why),
    // The link is over, and a byte of the article went out.
    Cut(PartEnd),
}

// Says POST, and the article where it is permitted. Where POST is refused it says QUIT.
pub(crate) fn post_article<L: Links>(dialog: Dialog, links: &mut L, block: &[u8]) -> Posting
    requires live { slice_get (L.live links.old) (link_of_dialog dialog) ≡ Some true }
    requires some { 0 < length block.now }
    ensures live { KeepsOpen (L.live links.old) (L.live links.new) result }
    ensures posted { (start : Start) (messages : List Message) (replies : List Reply) →
        Rests start (L.trace links.old) dialog messages replies →
        IsPosting start (L.trace links.new) dialog messages block.now replies result }
{
    let mut line = [0; 512];
    let len = write_command(Command::Post, &mut line);
    match dialog.say(links, &line[..len]) {
        Ok(()) => {}
        Err(_) => return Posting::Unsent(Why::Ended),
    }
    match dialog.hear(links, Awaited::Post) {
        Answer::Code(code) => {
            if code == 340 {
                return send_article(dialog, links, block);
            }
            dialog.quit(links);
            Posting::Refused(code)
        }
        Answer::Unasked(code) => {
            if code == 340 {
                return Posting::Unsent(Why::Unasked);
            }
            Posting::Refused(code)
        }
        Answer::Over(why) => Posting::Unsent(why),
    }
}

// Says an article that is permitted, and hears its answer.
fn send_article<L: Links>(dialog: Dialog, links: &mut L, block: &[u8]) -> Posting
    requires live { slice_get (L.live links.old) (link_of_dialog dialog) ≡ Some true }
    requires some { 0 < length block.now }
    ensures live { KeepsOpen (L.live links.old) (L.live links.new) result }
    ensures sent { (start : Start) (messages : List Message) (replies : List Reply) →
        Rests start (L.trace links.old) dialog messages replies →
        IsSending start (L.trace links.new) dialog messages block.now replies result }
{
    match dialog.say(links, block) {
        Ok(()) => {}
        Err(cut) => {
            if cut.sent == 0 {
                return Posting::Unsent(Why::Ended);
            }
            return Posting::Cut(PartEnd::Unsure);
        }
    }
    match dialog.hear(links, Awaited::Article) {
        Answer::Code(code) => Posting::Answered(end_of(code)),
        Answer::Unasked(code) => Posting::Cut(end_of(code)),
        Answer::Over(_) => Posting::Cut(PartEnd::Unsure),
    }
}

// What the code of the answer to an article says of it.
fn end_of(code: u16) -> PartEnd
    ensures { result ≡ article_end code }
{
    if code == 240 {
        PartEnd::Posted
    } else {
        PartEnd::Refused(code)
    }
}
