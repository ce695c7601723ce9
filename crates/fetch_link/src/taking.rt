// What the bytes do that are heard on a link: each call uses them up to the first that does something.
ghost use Rattle.fetch_link.specs.Takes.{is_article, what_of};
ghost use Rattle.limits.specs.declared.TheConstants.{MOST_TEXT_BYTES};
ghost use Rattle.std.specs.Prelude.{◌≡◌, ◌<◌, ◌≤◌, ◌-◌, min, ℕ, List, [], Option, Some, None, length, take, drop};

use crate::connection::{Connection, Phase};
use fused_decoder::{Ending, Event, Fused};
use limits::MOST_TEXT_BYTES;
use link_dialog::{Awaited, Reader, Step};
use nntp_lines::Why;
use range_assembler::Clash;

/// What the last of the used bytes did.
#[derive(Clone, Copy, Debug, PartialEq, Eq)]
pub enum What {
    /// Nothing yet: a status line or a block goes on.
    More,
    /// A reply with no block is whole, and has this code (RFC 3977, 3.2).
    Reply(u16),
    /// The line that fixes the article's range is ended: the size of its file in bytes, and the offsets of the part's first and last
    /// byte in it, from 1. It is to be answered by `go_on` or `turn_away` before the next bytes.
    Range {
        size: u64,
        first: u64,
        last: u64,
    },
    /// The article is whole (RFC 3977, 6.2.3), and its block ended so. This range stood against its own, where it was turned away,
    /// and its file has this size where the data followed.
    Article {
        ending: Ending,
        against: Option<Clash>,
        size: u64,
    },
    /// The link is over, and why.
    Over(Why),
}

/// What became of a piece of bytes.
#[derive(Clone, Copy, Debug, PartialEq, Eq)]
pub struct Took {
    /// How many of its bytes were used, from the front on.
    pub used: usize,
    /// How many decoded bytes stand at its front.
    pub wrote: usize,
    /// What the last of the used bytes did.
    pub what: What,
}

fn used_up(used: usize, what: What) -> Took
    ensures used { result.used ≡ used }
    ensures wrote { result.wrote ≡ 0 }
    ensures what { result.what ≡ what }
{
    Took {
        used,
        wrote: 0,
        what,
    }
}

// Whether the block of an article follows.
fn is_article(kind: Awaited, code: u16) -> bool
    ensures { result ≡ is_article kind code }
{
    match kind {
        Awaited::Body => code == 222,
        _ => false,
    }
}

// What a step of the decoder says, where this stood against the article's range, or its file has this size.
fn what_of(event: Event, against: Option<Clash>, size: u64) -> What
    ensures { result ≡ what_of event against size }
{
    match event {
        Event::More => What::More,
        Event::Range { size, first, last } => What::Range { size, first, last },
        Event::End(ending) => What::Article {
            ending,
            against,
            size,
        },
    }
}

impl Connection {
    ghost use Rattle.fetch_link.specs.Link.{LinkStands};
    ghost use Rattle.fetch_link.specs.Takes.{Awaits, Takes};
    ghost use Rattle.fetch_trace.specs.Hearing.{Hearing};
    ghost use Rattle.fused_decoder.specs.declared.state.Mode.{Mode};
    ghost use Rattle.fused_decoder.specs.Stands.{AreBytes};
    ghost use Rattle.fetch_link.specs.declared.connection.Phase.{Phase};
    ghost use Rattle.range_assembler.specs.declared.assembler.Clash.{Clash};

    /// Uses the bytes of a piece from its front on, up to the first that does something, and leaves the data that they give at the
    /// front. `awaited` is the kind of the reply that is due first, or none: a byte behind the last reply ends the link. A reply has at
    /// most 64 MiB, its status line counted.
    pub fn take(&mut self, awaited: Option<Awaited>, piece: &mut [u8]) -> Took
        requires some { 0 < length piece.old }
        ensures some { 0 < result.used }
        ensures order { result.wrote ≤ result.used }
        ensures within { result.used ≤ length piece.new }
        ensures long { length piece.new ≡ length piece.old }
        ensures rest { drop result.used piece.new ≡ drop result.used piece.old }
        ensures takes { (h : Hearing) (mode : Mode) (against : Option Clash) → Awaits awaited h.waiting → h.over ≡ None → LinkStands self.old h mode against
            → Takes self.new h mode against (take result.used piece.old) (take result.wrote piece.new) result.what }
    {
        match awaited {
            None => {
                self.over = Some(Why::Unasked);
                used_up(1, What::Over(Why::Unasked))
            }
            Some(kind) => match self.phase {
                Phase::Line => self.take_line(kind, piece),
                Phase::Article => self.take_article(piece),
            },
        }
    }

    // In a status line.
    fn take_line(&mut self, kind: Awaited, piece: &[u8]) -> Took
        requires some { 0 < length piece.now }
        ensures some { 0 < result.used }
        ensures wrote { result.wrote ≡ 0 }
        ensures within { result.used ≤ length piece.now }
        ensures takes { (h : Hearing) (mode : Mode) (against : Option Clash) → Awaits (Some kind) h.waiting → h.over ≡ None → self.old.phase ≡ Phase.Line
            → LinkStands self.old h mode against → Takes self.new h mode against (take result.used piece.now) [] result.what }
    {
        self.quiet = 0;
        let fed = self.reader.feed(kind, piece);
        match fed.step {
            Step::More => used_up(fed.used, What::More),
            Step::Over(why) => {
                self.over = Some(why);
                used_up(fed.used, What::Over(why))
            }
            Step::Line(code) => {
                self.wrote = 0;
                self.heard = self.reader.len_with_end();
                self.reader = Reader::new();
                if !is_article(kind, code) {
                    return used_up(fed.used, What::Reply(code));
                }
                self.fused = Fused::start();
                self.phase = Phase::Article;
                used_up(fed.used, What::More)
            }
        }
    }

    // How many bytes of a piece the reply has room for.
    fn fitting(&self, piece: &[u8]) -> usize
        ensures count { result ≡ min (MOST_TEXT_BYTES - self.now.heard) (length piece.now) }
        ensures bytes { AreBytes piece.now }
    {
        (MOST_TEXT_BYTES as usize - self.heard).min(piece.len())
    }

    // In the block of an article.
    fn take_article(&mut self, piece: &mut [u8]) -> Took
        requires some { 0 < length piece.old }
        ensures some { 0 < result.used }
        ensures order { result.wrote ≤ result.used }
        ensures within { result.used ≤ length piece.new }
        ensures long { length piece.new ≡ length piece.old }
        ensures rest { drop result.used piece.new ≡ drop result.used piece.old }
        ensures takes { (h : Hearing) (mode : Mode) (against : Option Clash) → h.over ≡ None → self.old.phase ≡ Phase.Article → LinkStands self.old h mode against
            → Takes self.new h mode against (take result.used piece.old) (take result.wrote piece.new) result.what }
    {
        self.quiet = 0;
        let count = self.fitting(piece);
        if count == 0 {
            self.over = Some(Why::TooLong);
            return used_up(1, What::Over(Why::TooLong));
        }
        let step = self.fused.step(&mut piece[..count]);
        self.heard += step.used;
        self.wrote += step.wrote as u64;
        let what = what_of(step.event, self.against, self.size);
        match step.event {
            Event::More => {}
            Event::Range { .. } => {}
            Event::End(_) => {
                self.phase = Phase::Line;
                self.against = None;
            }
        }
        Took {
            used: step.used,
            wrote: step.wrote,
            what,
        }
    }
}
