// The index of a file that was posted.
ghost use Rattle.std.specs.Prelude.{◌≡◌, ◌≤◌, length, IfOk};
ghost use Rattle.nzb_writer.specs.Canonical.{IsValidIndex};
ghost use Rattle.article_head.specs.Field.{names_of};
ghost use Rattle.poster.specs.Index.{AreOutcomes, IndexesArticles, entry_of, index_of, segments_from};
ghost use Rattle.poster.specs.Plan.{IsPlanOf};
ghost use Rattle.poster.specs.Settings.{AreSettings};
ghost use Rattle.limits.specs.declared.TheConstants.{LAST_MOMENT, MOST_SEGMENTS};

use crate::{Plan, PlanPart, Settings};
use article_head::write_subject;
use lists::{Bytes, List, Memory, bytes_of};
use nzb_writer::{FileEntry, Index, Segment};
use std::alloc::Global;

/// What became of a part.
#[derive(Clone, Copy, Debug, PartialEq, Eq)]
pub enum PartEnd {
    /// The server took its article.
    Posted,
    /// The server refused its article with this code.
    Refused(u16),
    /// A byte of its article was sent, and no answer to it was heard.
    Unsure,
    /// Nothing of its article was sent.
    NotSent,
}

/// What became of a part, and how long its article is.
#[derive(Clone, Copy, Debug, PartialEq, Eq)]
pub struct Sent {
    /// What became of it.
    pub end: PartEnd,
    /// How many octets the article has before it is stuffed, with CRLF behind each line; 0 where it wasn't made.
    pub bytes: u64,
}

/// The index of a file that was posted at a moment, in Unix seconds up to `LAST_MOMENT`: one file with all parts of the
/// plan, whatever became of them. There is one outcome for each part, of at most `MOST_OCTETS` octets.
pub fn post_index(
    alloc: Global,
    settings: &Settings,
    plan: &Plan,
    sent: &List<Sent>,
    moment: u64,
) -> Result<Index, Memory>
    requires settings { AreSettings settings.now }
    requires plan { IsPlanOf settings.now plan.now.size plan.now }
    requires sent { AreOutcomes plan.now sent.now }
    requires moment { moment ≤ LAST_MOMENT }
    ensures index { IfOk result (λ index. index ≡ index_of settings.now plan.now sent.now moment) }
    ensures valid { IfOk result IsValidIndex }
    ensures articles { IfOk result (IndexesArticles settings.now plan.now.size) }
{
    let mut files = List::new(alloc);
    files.push(entry_of(alloc, settings, plan, sent, moment)?)?;
    Ok(Index {
        metas: List::new(alloc),
        files,
    })
}

fn entry_of(
    alloc: Global,
    settings: &Settings,
    plan: &Plan,
    sent: &List<Sent>,
    moment: u64,
) -> Result<FileEntry, Memory>
    requires settings { AreSettings settings.now }
    requires plan { IsPlanOf settings.now plan.now.size plan.now }
    requires sent { AreOutcomes plan.now sent.now }
    ensures { IfOk result (λ entry. entry ≡ entry_of settings.now plan.now sent.now moment) }
{
    let mut subject = Bytes::new(alloc);
    let total = plan.parts.len() as u32;
    write_subject(
        settings.comment.as_slice(),
        settings.name.as_slice(),
        1,
        total,
        &mut subject,
    )?;
    Ok(FileEntry {
        poster: bytes_of(alloc, settings.from.as_slice())?,
        date: moment,
        subject,
        groups: groups_of(alloc, settings.newsgroups.as_slice())?,
        segments: segments_of(alloc, plan.parts.as_slice(), sent.as_slice())?,
    })
}

// The names in a list of newsgroups.
fn groups_of(alloc: Global, newsgroups: &[u8]) -> Result<List<Bytes>, Memory>
    ensures { IfOk result (λ groups. groups ≡ names_of newsgroups.now) }
{
    let mut groups = List::new(alloc);
    for name in newsgroups.split(|byte| *byte == b',') {
        groups.push(bytes_of(alloc, name)?)?;
    }
    Ok(groups)
}

fn segments_of(alloc: Global, parts: &[PlanPart], sent: &[Sent]) -> Result<List<Segment>, Memory>
    requires same { length parts.now ≡ length sent.now }
    requires few { length parts.now ≤ MOST_SEGMENTS }
    ensures { IfOk result (λ segments. segments ≡ segments_from 1 parts.now sent.now) }
{
    let mut segments = List::new(alloc);
    segments.reserve(parts.len())?;
    for i in 0..parts.len() {
        segments.push(Segment {
            number: i as u32 + 1,
            bytes: sent[i].bytes,
            id: parts[i].id.clone()?,
        })?;
    }
    Ok(segments)
}
