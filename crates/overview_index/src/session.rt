// The session of an index.
ghost use Rattle.std.specs.Prelude.{◌≡◌, ◌≤◌, ◌<◌, ◌+◌, ◌-◌, ◌/◌, length, slice_get, Some, true, ℕ, IfOk, IfErr};
ghost use Rattle.std.specs.Option.{option_copied};
ghost use Rattle.nntp_lines.specs.Command.{IsArticleNumber};
ghost use Rattle.nntp_lines.specs.declared.group.GroupReply.{GroupReply as GroupNumbers};
ghost use Rattle.link_dialog.specs.Talk.{OpeningFailed, Start, link_of_dialog};
ghost use Rattle.nzb_writer.specs.Canonical.{IsValidIndex};
ghost use Rattle.overview_index.specs.Session.{Query, IndexEnds, OnNoLink, ranges_in};
ghost use Rattle.overview_index.specs.Asking.{error_of, ComesOnLink, KeepsLiveIf, RangeEnds, RangesEnd, IndexUnderWay};

use crate::GroupError;
use crate::adding::{Desk, add_overview};
use crate::asking::{Asked, Chosen, ask, choose, quit};
use io_traits::Links;
use link_dialog::{Dialog, NotOpen};
use nntp_lines::{GroupName, Login, Why};
use nzb_writer::Index;
use std::alloc::Global;

// How many numbers of articles are asked for at once.
const RANGE: u64 = 10_000;

/// The index of the articles of a newsgroup in a range of numbers.
#[derive(Drop)]
pub struct Indexed {
    /// The files that the articles are parts of.
    pub index: Index,
    /// How many lines of the overview were skipped, since they were refused or their subjects have no count, up to the
    /// greatest `u64`.
    pub skipped: u64,
}

/// Why there is no index.
#[derive(Clone, Copy, Debug, PartialEq, Eq)]
pub enum IndexError {
    /// No memory was left.
    Memory,
    /// No link was opened: the call failed.
    NoLink,
    /// `GROUP` or `OVER` was refused with this code.
    Refused(u16),
    /// The link was over, for this reason, before all replies were heard.
    Over(Why),
    /// An article would pass a limit of an index. The error is never that no memory was left.
    Full(GroupError),
}

/// Indexes the articles of a newsgroup with the numbers from the first to the last, over one link (RFC 3977, 6.1.1 and 8.3).
/// It chooses the newsgroup, and asks for its overview by 10,000 numbers at a time, each range once the one before has its
/// reply, and none outside the newsgroup's own numbers. The dialog ends with `QUIT` where the link isn't over before. Bytes
/// that come behind a reply end the link, which matters only where another reply is due. The link is over after `patience`
/// quiet receives without anything else between.
pub fn run_index<L: Links>(
    alloc: Global,
    links: &mut L,
    address: &[u8],
    group: &GroupName,
    first: u64,
    last: u64,
    patience: u32,
    login: Option<&Login>,
) -> Result<Indexed, IndexError>
    requires first { 1 ≤ first }
    requires order { first ≤ last }
    requires numbers { IsArticleNumber last }
    requires patience { 0 < patience }

    // What was said and heard, and the index of it; and each error comes only where its cause stands.
    ensures ends { IndexEnds (record { group = group.now; first = first; last = last; patience = patience })
        (record { before = L.trace links.old; address = address.now; login = option_copied login.entry }) (L.trace links.new) result }
    ensures cause { OnNoLink result (OpeningFailed (L.faults links.old) (L.faults links.new) (L.blame links.old) (L.blame links.new) address.now) }
    ensures faults { L.faults links.old ≤ L.faults links.new }

    // Whatever the links tell, the index may be written as a text that reads back.
    ensures valid { IfOk result (λ indexed. IsValidIndex indexed.index) }
{
    let mut desk = match Desk::new(alloc, group) {
        Ok(desk) => desk,
        Err(_) => return Err(IndexError::Memory),
    };
    let dialog = match Dialog::open(links, address, login, patience) {
        Ok(dialog) => dialog,
        Err(NotOpen::NoLink) => return Err(IndexError::NoLink),
        Err(NotOpen::Over(why)) => return Err(IndexError::Over(why)),
    };
    let chosen = match choose(dialog, links, group) {
        Ok(chosen) => chosen,
        Err(why) => return Err(why),
    };
    match index_ranges(alloc, dialog, links, chosen, first, last, &mut desk) {
        Ok(()) => {}
        Err(why) => return Err(why),
    }
    let skipped = desk.skipped;
    match desk.grouper.finish() {
        Ok(index) => Ok(Indexed { index, skipped }),
        Err(_) => Err(IndexError::Memory),
    }
}

// Asks for all ranges, each once the one before has its reply, and says QUIT where the link isn't over before.
fn index_ranges<L: Links>(
    alloc: Global,
    dialog: Dialog,
    links: &mut L,
    chosen: Chosen,
    first: u64,
    last: u64,
    desk: &mut Desk,
) -> Result<(), IndexError>
    requires live { chosen.live ≡ true → slice_get (L.live links.old) (link_of_dialog dialog) ≡ Some true }
    requires numbers { IsArticleNumber last }
    ensures faults { L.faults links.old ≤ L.faults links.new }
    ensures linked { IfErr result ComesOnLink }
    ensures ends { (q : Query) (start : Start) → q.first ≡ first → q.last ≡ last →
        IndexUnderWay q start (L.trace links.old) dialog chosen.group desk.old 0 chosen.live → RangesEnd q start (L.trace links.new) desk.new result }
{
    let least = first.max(chosen.group.low);
    let most = last.min(chosen.group.high);
    let mut buf = [0; 65_536];
    let mut live = chosen.live;
    for done in 0..range_count(least, most) {
        if !live {
            return Err(IndexError::Over(Why::Unasked));
        }
        let from = least + done * RANGE;
        let to = most.min(from + (RANGE - 1));
        match index_range(alloc, dialog, links, from, to, &mut buf, desk) {
            Ok(still) => live = still,
            Err(why) => return Err(why),
        }
    }
    quit(dialog, links, live);
    Ok(())
}

// How many ranges have all numbers from one to another.
fn range_count(least: u64, most: u64) -> u64
    ensures { result ≡ (most + 10000 - least) / 10000 }
{
    if least > most {
        0
    } else {
        (most - least) / RANGE + 1
    }
}

// Asks for one range, and adds the lines of its reply. It answers whether the link is live then.
fn index_range<L: Links>(
    alloc: Global,
    dialog: Dialog,
    links: &mut L,
    from: u64,
    to: u64,
    buf: &mut [u8],
    desk: &mut Desk,
) -> Result<bool, IndexError>
    requires live { slice_get (L.live links.old) (link_of_dialog dialog) ≡ Some true }
    requires order { from ≤ to }
    requires numbers { IsArticleNumber to }
    requires room { 0 < length buf.old }
    ensures faults { L.faults links.old ≤ L.faults links.new }
    ensures live { IfOk result (KeepsLiveIf (L.live links.old) (L.live links.new)) }
    ensures linked { IfErr result ComesOnLink }
    ensures ends { (q : Query) (start : Start) (group : GroupNumbers) (done : ℕ) → slice_get (ranges_in q group) done ≡ Some (record { first = from; last = to }) →
        IndexUnderWay q start (L.trace links.old) dialog group desk.old done true → RangeEnds q start (L.trace links.new) dialog group desk.new (done + 1) result }
{
    match ask(dialog, links, from, to, buf, &mut desk.block) {
        Asked::Heard { code, kept, live } => match add_overview(alloc, code, kept, desk) {
            Ok(()) => Ok(live),
            Err(why) => {
                quit(dialog, links, live);
                Err(index_error(why))
            }
        },
        Asked::Refused(code) => Err(IndexError::Refused(code)),
        Asked::Over(why) => Err(IndexError::Over(why)),
    }
}

fn index_error(why: GroupError) -> IndexError
    ensures { result ≡ error_of why }
{
    match why {
        GroupError::Memory => IndexError::Memory,
        other => IndexError::Full(other),
    }
}
