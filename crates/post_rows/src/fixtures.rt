// Files as they are to be posted, and the articles of their parts.
ghost use Rattle.std.specs.Prelude.{◌≡◌, IsTrue};
ghost use Rattle.poster.specs.Plan.{IsPlanOf};
ghost use Rattle.poster.specs.Settings.{AreSettings};

use article_head::{is_comment, is_domain, is_file_name, is_from, is_newsgroups, is_token};
use dot_blocks::split_block;
use limits::{LEAST_LINE, MOST_LINE, MOST_PATIENCE};
use lists::{Bytes, Lines};
use poster::{Plan, Settings, plan, write_article};
use row_fixtures::{are_lines, bytes_of};
use std::process::Abort;
use yenc_lines::Name;

// A list of these bytes.
fn text<R: Abort + AllocGlobal>(rt: &R, bytes: &[u8]) -> Bytes {
    bytes_of(rt.alloc(), bytes).expect(rt, "bytes")
}

/// Settings for a file `d` that keep to the rules.
pub(crate) fn settings_of<R: Abort + AllocGlobal>(
    rt: &R,
    newsgroups: &[u8],
    part_size: u64,
) -> Settings
    ensures { AreSettings result }
{
    let settings = Settings {
        server: Bytes::new(rt.alloc()),
        login: None,
        from: text(rt, b"me@example.org"),
        newsgroups: text(rt, newsgroups),
        token: text(rt, b"tok"),
        domain: text(rt, b"example.org"),
        comment: Bytes::new(rt.alloc()),
        name: Name::new(b"d").expect(rt, "a name"),
        line: 128,
        part_size,
        patience: 100,
    };
    assert!(rt; keep_to_rules(&settings));
    settings
}

// Whether settings keep to the rules.
fn keep_to_rules(settings: &Settings) -> bool
    ensures { IsTrue result → AreSettings settings.now }
{
    let from = settings.from.as_slice();
    let newsgroups = settings.newsgroups.as_slice();
    let comment = settings.comment.as_slice();
    if !is_from(from) || !is_newsgroups(newsgroups) || !is_comment(comment) {
        return false;
    }
    let token = settings.token.as_slice();
    let domain = settings.domain.as_slice();
    let name = settings.name.as_slice();
    if !is_token(token) || !is_domain(domain) || !is_file_name(name) {
        return false;
    }
    if settings.line < LEAST_LINE || settings.line > MOST_LINE {
        return false;
    }
    if settings.part_size < 1 || settings.part_size > 16_777_216 {
        return false;
    }
    if settings.patience < 1 || settings.patience > MOST_PATIENCE {
        return false;
    }
    true
}

/// A file as it is to be posted.
#[derive(Drop)]
pub(crate) struct Planned {
    pub(crate) settings: Settings,
    pub(crate) plan: Plan,
}

/// The plan of a file `d` of so many bytes.
pub(crate) fn planned_of<R: Abort + AllocGlobal>(
    rt: &R,
    newsgroups: &[u8],
    part_size: u64,
    size: u64,
) -> Planned
    ensures settings { AreSettings result.settings }
    ensures plan { IsPlanOf result.settings result.plan.size result.plan }
    ensures size { result.plan.size ≡ size }
{
    let settings = settings_of(rt, newsgroups, part_size);
    assert!(rt; size <= 1_099_511_627_776);
    match plan(rt.alloc(), &settings, size) {
        Ok(plan) => Planned { settings, plan },
        Err(_) => rt.panic("a plan"),
    }
}

/// A file as it is to be posted, and the article that was made last.
#[derive(Drop)]
pub(crate) struct Desk {
    pub(crate) planned: Planned,
    /// How many octets the article has.
    pub(crate) octets: u64,
    /// Its lines, read back from the block.
    pub(crate) lines: Lines,
    pub(crate) block: Bytes,
    // The room of its head.
    head: Lines,
}

/// A desk without an article.
pub(crate) fn desk_of<R: Abort + AllocGlobal>(rt: &R, planned: Planned) -> Desk
    ensures { result.planned ≡ planned }
{
    Desk {
        planned,
        octets: 0,
        lines: Lines::new(rt.alloc()),
        block: Bytes::new(rt.alloc()),
        head: Lines::new(rt.alloc()),
    }
}

/// Makes the article of a part of a file, counted from 1, of the file's bytes, in place of the last one.
pub(crate) fn make<R: Abort + AllocGlobal>(rt: &R, desk: Desk, part: u32, file: &[u8]) -> Desk
    requires settings { AreSettings desk.planned.settings }
    requires plan { IsPlanOf desk.planned.settings desk.planned.plan.size desk.planned.plan }
    ensures { result.planned ≡ desk.planned }
{
    let Desk {
        planned,
        octets: _,
        lines: _,
        mut block,
        mut head,
    } = desk;
    let Planned { settings, plan } = planned;
    let octets = make_article(&settings, &plan, part, file, &mut head, &mut block).expect(
        rt,
        "an article",
    );
    let lines = split_block(rt.alloc(), block.as_slice()).expect(rt, "a block");
    Desk {
        planned: Planned { settings, plan },
        octets,
        lines,
        block,
        head,
    }
}

// Makes the article of a part of a file, counted from 1, of the file's bytes.
fn make_article(
    settings: &Settings,
    plan: &Plan,
    part: u32,
    file: &[u8],
    head: &mut Lines,
    block: &mut Bytes,
) -> Option<u64>
    requires settings { AreSettings settings.now }
    requires plan { IsPlanOf settings.now plan.now.size plan.now }
{
    if part < 1 || part as usize > plan.parts.len() {
        return None;
    }
    let planned = &plan.parts.as_slice()[part as usize - 1];
    let place = (planned.first.saturating_sub(1) as usize).min(file.len());
    let end = place.saturating_add(planned.len as usize).min(file.len());
    let bytes = &file[place..end];
    if bytes.len() as u64 != planned.len {
        return None;
    }
    write_article(settings, plan, part, bytes, head, block).ok()
}

/// Asserts that the article has these lines, with bars between them.
pub(crate) fn has_lines<R: Abort>(rt: &R, desk: Desk, wanted: &str) -> Desk {
    assert!(rt; are_lines(&desk.lines, wanted));
    desk
}
