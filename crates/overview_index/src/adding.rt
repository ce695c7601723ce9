// The lines of overviews, added to what is made of them.
ghost use Rattle.std.specs.Prelude.{[], ◌∷◌, List, ℕ, IfOk};
ghost use Rattle.link_dialog.specs.declared.awaited.Awaited.TheVariants as awaited;
ghost use Rattle.link_dialog.specs.BlockHearing.{HasReply};
ghost use Rattle.link_dialog.specs.Replies.{Reply};
ghost use Rattle.overview_index.specs.Session.{lines_in};
ghost use Rattle.overview_index.specs.Asking.{AddsLines, Tallies};

use crate::{Added, GroupError, Grouper};
use dot_blocks::split_block;
use lists::{Bytes, Lines, Memory};
use nntp_lines::GroupName;
use overview_lines::read_over;
use std::alloc::Global;

// Where one overview after the other is heard, and what was made of their lines.
#[derive(Drop)]
pub(crate) struct Desk {
    // The block of the last reply.
    pub(crate) block: Bytes,
    pub(crate) grouper: Grouper,
    // How many lines were skipped, up to the greatest `u64`.
    pub(crate) skipped: u64,
}

impl Desk {
    pub(crate) fn new(alloc: Global, group: &GroupName) -> Result<Self, Memory>
        ensures { IfOk result (λ desk. Tallies desk group.now []) }
    {
        Ok(Desk {
            block: Bytes::new(alloc),
            grouper: Grouper::new(alloc, group.clone()?),
            skipped: 0,
        })
    }
}

// Adds the lines of the reply with this code whose block stands on the desk, if there was room for it.
pub(crate) fn add_overview(
    alloc: Global,
    code: u16,
    kept: bool,
    desk: &mut Desk,
) -> Result<(), GroupError>
    ensures { (group : List ℕ) (before : List (List ℕ)) (reply : Reply) → HasReply awaited.Over code kept desk.old.block reply →
        Tallies desk.old group before → AddsLines desk.new group before (lines_in (reply ∷ [])) result }
{
    if code != 224 {
        return Ok(());
    }
    if !kept {
        return Err(GroupError::Memory);
    }
    match split_block(alloc, desk.block.as_slice()) {
        Ok(lines) => add_lines(&lines, desk),
        // The block is whole, so that nothing else is wanting.
        Err(_) => Err(GroupError::Memory),
    }
}

fn add_lines(lines: &Lines, desk: &mut Desk) -> Result<(), GroupError>
    ensures { (group : List ℕ) (before : List (List ℕ)) → Tallies desk.old group before → AddsLines desk.new group before lines.now result }
{
    for i in 0..lines.len() {
        match add_line(lines.line(i), desk) {
            Ok(()) => {}
            Err(why) => return Err(why),
        }
    }
    Ok(())
}

// Adds a line, or counts it where it is refused or its subject has no count.
fn add_line(line: &[u8], desk: &mut Desk) -> Result<(), GroupError>
    ensures { (group : List ℕ) (before : List (List ℕ)) → Tallies desk.old group before → AddsLines desk.new group before (line.now ∷ []) result }
{
    let over = match read_over(line) {
        Ok(over) => over,
        Err(_) => {
            desk.skipped = desk.skipped.saturating_add(1);
            return Ok(());
        }
    };
    match desk.grouper.add(&over) {
        Ok(Added::New) => Ok(()),
        Ok(Added::Repeat) => Ok(()),
        Ok(Added::NoCount) => {
            desk.skipped = desk.skipped.saturating_add(1);
            Ok(())
        }
        Err(why) => Err(why),
    }
}
