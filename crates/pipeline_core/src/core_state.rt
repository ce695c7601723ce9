// The links and the segments of a fetch, and the calls that change them.
ghost use Rattle.std.specs.Prelude.{◌≡◌, ◌<◌, ◌≤◌, ◌-◌, ℕ, true, false, length, Some, None, Option, IfOk, IfSome, slice_index, slice_get};
ghost use Rattle.pipeline_core.specs.Links.{has_link_left, holder};
ghost use Rattle.pipeline_core.specs.Pipeline.{start, segment_state, next_segment, can_be_asked, asked_on, is_decided, is_finished, after_greeting, after_next, after_reply, after_over, after_settling, is_greeted_on, is_over_on};
ghost use Rattle.pipeline_core.specs.Searches.{first_from, waits_for};
ghost use Rattle.pipeline_core.specs.Sound.{IsSoundPipeline};
ghost use Rattle.limits.specs.declared.TheConstants.{MOST_DEPTH, MOST_LEVEL, MOST_LINKS, MOST_SEGMENTS, MOST_SERVERS};

use crate::link::Link;
use crate::places::Places;
use crate::scans::{first_to_come, forget, is_spent, servers_waited_for};
use crate::segment::Segment;
use crate::state::{Outcome, SegmentState};
use limits::MOST_SERVERS;
use lists::Memory;
use std::alloc::Global;
use std::marker::Model;

/// Which segment is asked for on which link, and which servers have answered it.
#[derive(Drop)]
pub struct Core {
    links: Vec<Link>,
    segments: Vec<Segment>,
    holders: Vec<Option<u32>>,
    levels: Vec<u8>,
    depth: u32,
    places: Places,
}

impl Model for Core {
    ghost use Rattle.pipeline_core.specs.PipelineAt.{Pipeline};
    ghost use Rattle.pipeline_core.specs.Sound.{IsSoundCore};

    ghost Value = { Pipeline };

    ghost view = { λ c. record { links = c.links.items; segments = c.segments.items; levels = c.levels.items; depth = c.depth } };

    ghost invariant = { λ c. IsSoundCore (record { links = c.links.items; segments = c.segments.items; levels = c.levels.items; depth = c.depth }) c.holders.items c.places.lows c.places.fresh c.places.decided };
}

impl Core {
    /// No link is greeted, and no segment is asked for. The links have these servers, and the servers these levels. At most
    /// `depth` segments are outstanding on a link.
    pub fn new(
        alloc: Global,
        server_of_link: &[u32],
        level_of_server: &[u8],
        segments: u32,
        depth: u32,
    ) -> Result<Self, Memory>
        requires servers { length level_of_server.now ≤ MOST_SERVERS }
        requires levels { (k : ℕ) → k < length level_of_server.now → slice_index level_of_server.now k ≤ MOST_LEVEL }
        requires links { length server_of_link.now ≤ MOST_LINKS }
        requires each { (k : ℕ) → k < length server_of_link.now → slice_index server_of_link.now k < length level_of_server.now }
        requires segments { segments ≤ MOST_SEGMENTS }
        requires some_depth { 1 ≤ depth }
        requires depth { depth ≤ MOST_DEPTH }
        ensures { IfOk result (λ core. core ≡ start server_of_link.now level_of_server.now segments depth) }
    {
        let mut links = Vec::new(alloc);
        for server in server_of_link {
            links.push(Link::new(alloc, *server)?)?;
        }
        let mut levels = Vec::new(alloc);
        levels.extend_from_slice(level_of_server)?;
        let fresh = Segment::new();
        Ok(Core {
            links,
            segments: vec![in alloc; fresh; segments as usize]?,
            holders: vec![in alloc; None; segments as usize]?,
            levels,
            depth,
            places: Places::new(),
        })
    }

    /// The link may be asked from now on.
    pub fn greeted(&mut self, link: u32)
        requires link { link < length self.old.links }
        requires live { is_over_on self.old link ≡ false }
        ensures { self.new ≡ after_greeting self.old link }
    {
        self.links[link as usize].greet();
    }

    /// The segment that the link is to ask for, which is outstanding there from now on: the least one that is open, that its
    /// server hasn't answered, and with which every server of a lower level is done. None where there is no such segment, and
    /// where the link may not be asked.
    pub fn next(&mut self, link: u32) -> Option<u32>
        requires link { link < length self.old.links }
        ensures next { result ≡ next_segment self.old link }
        ensures after { self.new ≡ after_next self.old link result }
        ensures within { IfSome result (λ segment. segment < length self.new.segments) }
    {
        let found = self.find_next(link);
        match found {
            Some(segment) => self.give(link, segment),
            None => self.pass(link),
        }
        found
    }

    // The segment is outstanding on the link from now on.
    fn give(&mut self, link: u32, segment: u32)
        requires link { link < length self.old.links }
        requires next { next_segment self.old link ≡ Some segment }
        ensures { self.new ≡ after_next self.old link (Some segment) }
    {
        let asker = &mut self.links[link as usize];
        let server = asker.server();
        asker.ask(segment);
        self.holders[segment as usize] = Some(link);
        self.places.note_asked(server, segment);
        self.places.fresh = first_to_come(&self.segments, self.places.fresh);
    }

    // Where the link may be asked, its server can be asked for no segment.
    fn pass(&mut self, link: u32)
        requires link { link < length self.old.links }
        requires next { next_segment self.old link ≡ None }
        ensures { self.new ≡ self.old }
    {
        let asker = &self.links[link as usize];
        if !asker.may_ask(self.depth) {
            return;
        }
        let server = asker.server();
        self.places.note_none(server, self.segments.len() as u32);
    }

    fn find_next(&self, link: u32) -> Option<u32>
        requires link { link < length self.now.links }
        ensures { result ≡ next_segment self.now link }
    {
        let asker = &self.links[link as usize];
        if asker.may_ask(self.depth) {
            let server = asker.server();
            let waits = servers_waited_for(&self.links, &self.levels, server);
            self.first_to_ask(server, &waits)
        } else {
            None
        }
    }

    // The least segment that the server can be asked for. It stands from the server's place on, and no further than where
    // none was asked for: all behind that are alike.
    fn first_to_ask(&self, server: u32, waits: &[bool; MOST_SERVERS]) -> Option<u32>
        requires server { server < length self.now.levels }
        requires left { has_link_left self.now.links server ≡ true }
        requires waits { (other : ℕ) → other < length self.now.levels → slice_get waits.now other ≡ Some (waits_for self.now.links self.now.levels server other) }
        ensures { result ≡ first_from (can_be_asked self.now server) 0 (length self.now.segments) }
    {
        let start = self.places.lows[server as usize];
        let segments = self.segments.len() as u32;
        if self.places.fresh < segments {
            self.first_between(server, waits, start, self.places.fresh + 1)
        } else {
            self.first_between(server, waits, start, segments)
        }
    }

    // The least of these segments that the server can be asked for.
    fn first_between(
        &self,
        server: u32,
        waits: &[bool; MOST_SERVERS],
        start: u32,
        end: u32,
    ) -> Option<u32>
        requires within { end ≤ length self.now.segments }
        requires server { server < length self.now.levels }
        requires left { has_link_left self.now.links server ≡ true }
        requires waits { (other : ℕ) → other < length self.now.levels → slice_get waits.now other ≡ Some (waits_for self.now.links self.now.levels server other) }
        ensures { result ≡ first_from (can_be_asked self.now server) start (end - start) }
    {
        for segment in start..end {
            if self.can_be_asked(server, waits, segment) {
                return Some(segment);
            }
        }
        None
    }

    // Whether the server can be asked for a segment. It has a link left, and waits for the servers marked here.
    fn can_be_asked(&self, server: u32, waits: &[bool; MOST_SERVERS], segment: u32) -> bool
        requires segment { segment < length self.now.segments }
        requires server { server < length self.now.levels }
        requires left { has_link_left self.now.links server ≡ true }
        requires waits { (other : ℕ) → other < length self.now.levels → slice_get waits.now other ≡ Some (waits_for self.now.links self.now.levels server other) }
        ensures { result ≡ can_be_asked self.now server segment }
    {
        if self.holders[segment as usize].is_some() {
            return false;
        }
        let marks = &self.segments[segment as usize];
        if marks.has_arrived() || marks.is_answered_by(server) {
            return false;
        }
        marks.is_passed(waits, self.levels.len() as u32)
    }

    /// Answers the segment that has been outstanding longest on the link.
    pub fn reply(&mut self, link: u32, outcome: Outcome) -> u32
        requires link { link < length self.old.links }
        requires asked { 0 < length (asked_on self.old link) }
        ensures oldest { slice_get (asked_on self.old link) 0 ≡ Some result }
        ensures after { self.new ≡ after_reply self.old link result outcome }
        ensures within { result < length self.new.segments }
    {
        let segment = self.take_answer(link, outcome);
        self.note_decided();
        segment
    }

    fn take_answer(&mut self, link: u32, outcome: Outcome) -> u32
        requires link { link < length self.old.links }
        requires asked { 0 < length (asked_on self.old link) }
        ensures oldest { slice_get (asked_on self.old link) 0 ≡ Some result }
        ensures after { self.new ≡ after_reply self.old link result outcome }
        ensures within { result < length self.new.segments }
    {
        let asker = &mut self.links[link as usize];
        let server = asker.server();
        let segment = asker.take_oldest();
        self.holders[segment as usize] = None;
        self.segments[segment as usize].note(server, outcome);
        self.places.note_answer(server, segment, outcome);
        segment
    }

    /// The link is lost: what was outstanding on it is open again, or exhausted.
    pub fn over(&mut self, link: u32)
        requires link { link < length self.old.links }
        requires live { is_over_on self.old link ≡ false }
        ensures { self.new ≡ after_over self.old link }
    {
        self.end(link);
        self.note_decided();
    }

    fn end(&mut self, link: u32)
        requires link { link < length self.old.links }
        ensures { self.new ≡ after_over self.old link }
    {
        self.links[link as usize].end();
        forget(&mut self.holders, link);
        self.places.note_over();
    }

    /// The segment has arrived without being asked for, as one that an earlier run has kept. No link may have it outstanding.
    pub fn settle(&mut self, segment: u32)
        requires segment { segment < length self.old.segments }
        requires unheld { holder self.old.links segment ≡ None }
        ensures { self.new ≡ after_settling self.old segment }
    {
        self.arrive(segment);
        self.note_decided();
    }

    fn arrive(&mut self, segment: u32)
        requires segment { segment < length self.old.segments }
        requires unheld { holder self.old.links segment ≡ None }
        ensures { self.new ≡ after_settling self.old segment }
    {
        self.segments[segment as usize].arrive();
        self.places.fresh = first_to_come(&self.segments, self.places.fresh);
    }

    // Moves the place below which each segment is decided.
    fn note_decided(&mut self)
        ensures { self.new ≡ self.old }
    {
        let decided = self.first_undecided();
        self.places.decided = decided;
    }

    // The least segment that hasn't arrived and isn't exhausted, or the number of segments where there is none.
    fn first_undecided(&self) -> u32
        ensures within { result ≤ length self.now.segments }
        ensures decided { (segment : ℕ) → segment < result → is_decided (segment_state self.now segment) ≡ true }
        ensures undecided { result < length self.now.segments → is_decided (segment_state self.now result) ≡ false }
    {
        let segments = self.segments.len() as u32;
        for segment in self.places.decided..segments {
            match self.state(segment) {
                SegmentState::Open => return segment,
                SegmentState::Outstanding(_) => return segment,
                _ => {}
            }
        }
        segments
    }

    /// Whether the link may be asked, unless it is over.
    pub fn is_greeted(&self, link: u32) -> bool
        requires { link < length self.now.links }
        ensures { result ≡ is_greeted_on self.now link }
    {
        self.links[link as usize].is_greeted()
    }

    /// Whether the link is lost.
    pub fn is_over(&self, link: u32) -> bool
        requires { link < length self.now.links }
        ensures { result ≡ is_over_on self.now link }
    {
        self.links[link as usize].is_over()
    }

    /// How many segments are outstanding on the link.
    pub fn outstanding(&self, link: u32) -> u32
        requires { link < length self.now.links }
        ensures { result ≡ length (asked_on self.now link) }
    {
        self.links[link as usize].count() as u32
    }

    /// The segment that has been outstanding longest on the link.
    pub fn oldest(&self, link: u32) -> Option<u32>
        requires { link < length self.now.links }
        ensures oldest { result ≡ slice_get (asked_on self.now link) 0 }
        ensures within { IfSome result (λ segment. segment < length self.now.segments) }
    {
        self.links[link as usize].oldest()
    }

    /// What has become of a segment.
    pub fn state(&self, segment: u32) -> SegmentState
        requires { segment < length self.now.segments }
        ensures state { result ≡ segment_state self.now segment }
        ensures whole { IsSoundPipeline self.now }
    {
        let marks = &self.segments[segment as usize];
        if marks.has_arrived() {
            return SegmentState::Arrived;
        }
        match self.holders[segment as usize] {
            Some(link) => SegmentState::Outstanding(link),
            None => {
                if is_spent(&self.links, marks, self.levels.len() as u32) {
                    SegmentState::Exhausted
                } else {
                    SegmentState::Open
                }
            }
        }
    }

    /// Whether each segment has arrived or is exhausted.
    pub fn finished(&self) -> bool
        ensures value { result ≡ is_finished self.now }
        ensures whole { IsSoundPipeline self.now }
    {
        self.first_undecided() as usize == self.segments.len()
    }
}
