// The session of a post.
ghost use Rattle.std.specs.Prelude.{◌≡◌, ◌≤◌, ◌<◌, ◌-◌, [], length, slice_get, Some, true, List as Seq, Option, ℕ, IfOk};
ghost use Rattle.input_files.specs.Reading.{reading};
ghost use Rattle.link_dialog.specs.Talk.{OpeningFailed, Start, link_of_dialog};
ghost use Rattle.poster.specs.Said.{IsMade, outcomes_of};
ghost use Rattle.poster.specs.Session.{PostEnds, OnNoLink, HasOutcomes, StopsSomewhere};
ghost use Rattle.poster.specs.Posting.{UnderWay, PartEnds, RunEnds, RunReads, KeepsOpenUnless, made_on, error_of};
ghost use Rattle.poster.specs.Plan.{IsPlanOf};
ghost use Rattle.poster.specs.Settings.{AreSettings};

use crate::desk::{Desk, Unmade, make_part};
use crate::posting::{Posting, post_article};
use crate::{PartEnd, Plan, Sent, Settings};
use io_traits::{Input, Links};
use link_dialog::{Dialog, NotOpen};
use lists::{List, Memory};
use nntp_lines::Why;
use std::alloc::Global;

/// Why a post has no outcome for each part, or was refused.
#[derive(Drop)]
pub enum PostError {
    /// No memory was left.
    Memory,
    /// A call on the input failed.
    Input,
    /// A read of the input gave no byte at this place.
    Short(u64),
    /// No link was opened: the call failed.
    NoLink,
    /// `POST` was refused with this code, after these outcomes of all parts.
    Refused(u16, List<Sent>),
    /// The link was over, for this reason, before a byte of any article went out.
    Over(Why),
}

// How the posting of the parts ended, where the article of each part that was reached was made.
#[derive(Clone, Copy)]
pub(crate) enum RunEnd {
    // Each part that was begun has its outcome.
    Sent,
    // POST was refused with this code.
    Refused(u16),
    // The link was over, for this reason, before a byte of any article went out.
    Over(Why),
}

/// Posts the current file over one link (RFC 3977, 6.3.1): its parts in order, each once the one before has its answer, and
/// none twice. It answers what became of each part. A part of whose article a byte went out without an answer is `Unsure`,
/// and nothing is sent behind it. The dialog ends with `QUIT` where the link isn't over before. Memory is asked for before the
/// link is opened, and behind that only between an answer and the next `POST`.
pub fn run_post<I: Input, L: Links>(
    alloc: Global,
    settings: &Settings,
    plan: &Plan,
    input: &mut I,
    links: &mut L,
) -> Result<List<Sent>, PostError>
    requires settings { AreSettings settings.now }
    requires plan { IsPlanOf settings.now plan.now.size plan.now }
    requires current { I.current input.old ≡ Some plan.now.size }

    // What was read and said, and what became of each part; and each error comes only where its cause stands.
    ensures ends { PostEnds settings.now plan.now.size (length plan.now.parts) (I.content input.old)
        (reading I.Input input.old input.new)
        (record { before = L.trace links.old; address = settings.now.server; login = settings.now.login }) (L.trace links.new) result }
    ensures cause { OnNoLink result (OpeningFailed (L.faults links.old) (L.faults links.new) (L.blame links.old) (L.blame links.new) settings.now.server) }

    // Each list that is answered may stand in an index. Behind the part at which the run stopped it has no octets.
    ensures outcomes { HasOutcomes plan.now result }
    ensures stops { StopsSomewhere result }

    // The input has the same current file.
    ensures current { I.current input.new ≡ I.current input.old }
    ensures content { I.content input.new ≡ I.content input.old }
{
    let mut desk = Desk::new(alloc);
    match make_part(settings, plan, 1, input, &mut desk) {
        Ok(()) => {}
        Err(unmade) => return Err(post_error(unmade)),
    }
    let mut sent = match unsent(alloc, plan.parts.len()) {
        Ok(sent) => sent,
        Err(_) => return Err(PostError::Memory),
    };
    let dialog = match Dialog::open(
        links,
        settings.server.as_slice(),
        settings.login.as_ref(),
        settings.patience,
    ) {
        Ok(dialog) => dialog,
        Err(NotOpen::NoLink) => return Err(PostError::NoLink),
        Err(NotOpen::Over(why)) => return Err(PostError::Over(why)),
    };
    match post_parts(settings, plan, input, dialog, links, &mut desk, &mut sent) {
        Ok(RunEnd::Sent) => Ok(sent),
        Ok(RunEnd::Refused(code)) => Err(PostError::Refused(code, sent)),
        Ok(RunEnd::Over(why)) => Err(PostError::Over(why)),
        Err(unmade) => Err(post_error(unmade)),
    }
}

// The outcomes of so many parts of which nothing was sent.
fn unsent(alloc: Global, parts: usize) -> Result<List<Sent>, Memory>
    ensures { IfOk result (λ sent. sent ≡ outcomes_of parts [] []) }
{
    let mut sent = List::new(alloc);
    sent.reserve(parts)?;
    for _ in 0..parts {
        sent.push(Sent {
            end: PartEnd::NotSent,
            bytes: 0,
        })?;
    }
    Ok(sent)
}

fn post_error(unmade: Unmade) -> PostError
    ensures { result ≡ error_of unmade }
{
    match unmade {
        Unmade::Memory => PostError::Memory,
        Unmade::Input => PostError::Input,
        Unmade::Short(place) => PostError::Short(place),
    }
}

// Posts all parts, of which the first one's article stands on the desk, and says QUIT where the link isn't over before.
fn post_parts<I: Input, L: Links>(
    settings: &Settings,
    plan: &Plan,
    input: &mut I,
    dialog: Dialog,
    links: &mut L,
    desk: &mut Desk,
    sent: &mut List<Sent>,
) -> Result<RunEnd, Unmade>
    requires settings { AreSettings settings.now }
    requires plan { IsPlanOf settings.now plan.now.size plan.now }
    requires current { I.current input.old ≡ Some plan.now.size }
    requires live { slice_get (L.live links.old) (link_of_dialog dialog) ≡ Some true }
    requires made { IsMade settings.now plan.now.size (I.content input.old) 1 (made_on desk.old) }
    requires all { length sent.old ≡ length plan.now.parts }
    ensures ends { (start : Start) →
        UnderWay settings.now plan.now.size (length plan.now.parts) (I.content input.old) start (L.trace links.old) dialog 0 sent.old →
        RunEnds settings.now plan.now.size (length plan.now.parts) (I.content input.old) start (L.trace links.new) sent.new result }
    ensures reads { RunReads plan.now.size (reading I.Input input.old input.new) result }
    ensures current { I.current input.new ≡ I.current input.old }
    ensures content { I.content input.new ≡ I.content input.old }
{
    let total = plan.parts.len() as u32;
    let mut part = 1;
    loop {
        match post_part(dialog, links, part, desk, sent) {
            None => {}
            Some(end) => return Ok(end),
        }
        if part >= total {
            dialog.quit(links);
            return Ok(RunEnd::Sent);
        }
        part += 1;
        match make_part(settings, plan, part, input, desk) {
            Ok(()) => {}
            Err(unmade) => {
                dialog.quit(links);
                return Err(unmade);
            }
        }
    }
}

// Posts the part, counted from 1, whose article stands on the desk, and notes what became of it. It answers how the posting
// ended, where it did.
fn post_part<L: Links>(
    dialog: Dialog,
    links: &mut L,
    part: u32,
    desk: &Desk,
    sent: &mut List<Sent>,
) -> Option<RunEnd>
    requires live { slice_get (L.live links.old) (link_of_dialog dialog) ≡ Some true }
    requires some { 0 < length desk.now.block }
    requires first { 1 ≤ part }
    requires last { part ≤ length sent.old }
    ensures length { length sent.new ≡ length sent.old }
    ensures live { KeepsOpenUnless (L.live links.old) (L.live links.new) result }
    ensures ends { (s : Settings) (size : ℕ) (content : Option (Seq ℕ)) (start : Start) →
        UnderWay s size (length sent.old) content start (L.trace links.old) dialog (part - 1) sent.old →
        IsMade s size content part (made_on desk.now) →
        PartEnds s size (length sent.old) content start (L.trace links.new) dialog part sent.new result }
{
    let at = part as usize - 1;
    let bytes = desk.octets;
    match post_article(dialog, links, desk.block.as_slice()) {
        Posting::Answered(end) => {
            sent.set(at, Sent { end, bytes });
            None
        }
        Posting::Refused(code) => {
            let end = PartEnd::NotSent;
            sent.set(at, Sent { end, bytes });
            Some(RunEnd::Refused(code))
        }
        Posting::Unsent(why) => {
            let end = PartEnd::NotSent;
            sent.set(at, Sent { end, bytes });
            if part == 1 {
                return Some(RunEnd::Over(why));
            }
            Some(RunEnd::Sent)
        }
        Posting::Cut(end) => {
            sent.set(at, Sent { end, bytes });
            Some(RunEnd::Sent)
        }
    }
}
