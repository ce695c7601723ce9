// One reply heard, by as many receives as it takes.
ghost use Rattle.std.specs.Prelude.{◌≡◌, ◌≤◌, ◌<◌, [], ◌∷◌, Some, None, true, slice_get, length, take, OnOk, IfOk, MatchResult};
ghost use Rattle.io_traits.specs.Links.{tell, heard_events, live_after_receive, GotFits, GotHasCause};
ghost use Rattle.link_dialog.specs.Reader.{HoldsRest};
ghost use Rattle.link_dialog.specs.Hearing.{HeardTo, LineHeard};
ghost use Rattle.link_dialog.specs.Talk.{KeepsLive, HasNoBlock};
ghost use Rattle.link_dialog.specs.Heard.{IsAnswered, IsGroupAnswered, GroupKeepsLive};

use crate::reader::{Reader, Step};
use crate::{Answer, Awaited, GroupAnswer};
use io_traits::{Got, Links};
use nntp_lines::{Why, read_group};

// Where a status line ended: its code, how many bytes of the last receive it used, and how many that receive got.
#[derive(Clone, Copy)]
pub(crate) struct LineEnd {
    pub(crate) code: u16,
    pub(crate) used: usize,
    pub(crate) len: usize,
}

// Receives on the one link that is heard. The links are asked for its turn first, so that those that wait for a link to be ready do.
pub(crate) fn receive<L: Links>(links: &mut L, link: u32, buf: &mut [u8]) -> Got
    requires live { slice_get (L.live links.old) link ≡ Some true }
    requires room { 0 < length buf.old }
    ensures cause { GotHasCause (L.faults links.old) (L.faults links.new) result }
    ensures count { GotFits (length buf.old) result }
    ensures live { L.live links.new ≡ live_after_receive (L.live links.old) link result }
    ensures trace { L.trace links.new ≡ tell (L.trace links.old) (heard_events link buf.new result) }
{
    let _place = links.first_ready(&[link]);
    links.receive(link, buf)
}

// Receives until the status line of a reply of this kind has ended, or the link is over.
pub(crate) fn hear_line<L: Links>(
    links: &mut L,
    link: u32,
    patience: u32,
    kind: Awaited,
    reader: &mut Reader,
    buf: &mut [u8],
) -> Result<LineEnd, Why>
    requires live { slice_get (L.live links.old) link ≡ Some true }
    requires patient { 0 < patience }
    requires room { 0 < length buf.old }
    requires begins { HoldsRest reader.old [] }
    ensures faults { L.faults links.old ≤ L.faults links.new }
    ensures live { OnOk result (L.live links.new ≡ L.live links.old) }
    ensures some { IfOk result (λ end. 0 < end.used) }
    ensures fits { IfOk result (λ end. end.used ≤ end.len) }
    ensures room { IfOk result (λ end. end.len ≤ length buf.new) }
    ensures heard { MatchResult result
        (λ end. LineHeard (L.trace links.old) (L.trace links.new) link patience kind (take end.len buf.new) end.used end.code reader.new)
        (λ reason. HeardTo (L.trace links.old) (L.trace links.new) link patience kind [] (Some reason)) }
{
    let mut quiet = 0;
    loop {
        match receive(links, link, buf) {
            Got::Bytes(len) => {
                quiet = 0;
                let fed = reader.feed(kind, &buf[..len]);
                let used = fed.used;
                match fed.step {
                    Step::More => {}
                    Step::Line(code) => return Ok(LineEnd { code, used, len }),
                    Step::Over(why) => return Err(why),
                }
            }
            Got::Quiet => {
                quiet += 1;
                if quiet >= patience {
                    return Err(Why::Quiet);
                }
            }
            Got::Closed => return Err(Why::Ended),
            Got::Failed => return Err(Why::Ended),
        }
    }
}

// Receives until a reply of one line was heard whole, or the link is over.
pub(crate) fn hear_reply<L: Links>(links: &mut L, link: u32, patience: u32, kind: Awaited) -> Answer
    requires live { slice_get (L.live links.old) link ≡ Some true }
    requires patient { 0 < patience }
    requires plain { HasNoBlock kind }
    ensures faults { L.faults links.old ≤ L.faults links.new }
    ensures live { KeepsLive (L.live links.old) (L.live links.new) result }
    ensures heard { IsAnswered (L.trace links.old) (L.trace links.new) link patience kind result }
{
    let mut reader = Reader::new();
    let mut buf = [0; 1024];
    match hear_line(links, link, patience, kind, &mut reader, &mut buf) {
        Err(why) => Answer::Over(why),
        Ok(end) => {
            if end.used == end.len {
                Answer::Code(end.code)
            } else {
                Answer::Unasked(end.code)
            }
        }
    }
}

// Receives until the reply to `GROUP` was heard whole, or the link is over.
pub(crate) fn hear_group_reply<L: Links>(links: &mut L, link: u32, patience: u32) -> GroupAnswer
    requires live { slice_get (L.live links.old) link ≡ Some true }
    requires patient { 0 < patience }
    ensures faults { L.faults links.old ≤ L.faults links.new }
    ensures live { GroupKeepsLive (L.live links.old) (L.live links.new) result }
    ensures heard { IsGroupAnswered (L.trace links.old) (L.trace links.new) link patience result }
{
    let mut reader = Reader::new();
    let mut buf = [0; 1024];
    let end = match hear_line(links, link, patience, Awaited::Group, &mut reader, &mut buf) {
        Ok(end) => end,
        Err(why) => return GroupAnswer::Over(why),
    };
    if end.code != 211 {
        if end.used != end.len {
            return GroupAnswer::Unasked(end.code);
        }
        return GroupAnswer::Code(end.code);
    }
    match read_group(reader.line()) {
        Some(group) => {
            if end.used != end.len {
                return GroupAnswer::ChosenUnasked(group);
            }
            GroupAnswer::Chosen(group)
        }
        None => unreachable!(),
    }
}
