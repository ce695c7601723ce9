// A core, and calls of it that keep its conditions.
ghost use Rattle.std.specs.Prelude.{◌≡◌, ◌<◌, ◌≤◌, ℕ, true, false, length, slice_index, slice_index_or};
ghost use Rattle.pipeline_core.specs.Pipeline.{is_over_on};

use pipeline_core::{Core, Outcome, SegmentState};
use std::alloc::Global;

/// A core of at most 64 links, and which of them are over. A call that its conditions rule out does nothing.
#[derive(Drop)]
pub(crate) struct Trial {
    core: Core,
    over: [bool; 64],
    links: u32,
    segments: u32,
    ghost few: { links ≤ 64 },
    ghost as_many: { length core.links ≡ links },
    ghost parts: { length core.segments ≡ segments },
    ghost ends: { (link : ℕ) → is_over_on core link ≡ slice_index_or over link false },
}

fn are_below(numbers: &[u32], bound: u32) -> bool
    ensures { result ≡ true → (k : ℕ) → k < length numbers.now → slice_index numbers.now k < bound }
{
    for number in numbers {
        if *number >= bound {
            return false;
        }
    }
    true
}

fn are_levels(levels: &[u8]) -> bool
    ensures { result ≡ true → (k : ℕ) → k < length levels.now → slice_index levels.now k ≤ 9 }
{
    for level in levels {
        if *level > 9 {
            return false;
        }
    }
    true
}

impl Trial {
    /// None outside the limits, where there is no such server or level, and where there is no memory.
    pub(crate) fn new(
        alloc: Global,
        server_of_link: &[u32],
        level_of_server: &[u8],
        segments: u32,
        depth: u32,
    ) -> Option<Self> {
        let links = server_of_link.len();
        let servers = level_of_server.len();
        if links > 64 || servers > 16 || segments > 262144 || depth < 1 || depth > 32 {
            return None;
        }
        if !are_below(server_of_link, servers as u32) || !are_levels(level_of_server) {
            return None;
        }
        match Core::new(alloc, server_of_link, level_of_server, segments, depth) {
            Ok(core) => Some(Trial {
                core,
                over: [false; 64],
                links: links as u32,
                segments,
            }),
            Err(_) => None,
        }
    }

    pub(crate) fn greet(&mut self, link: u32) {
        if link < self.links && !self.over[link as usize] {
            self.core.greeted(link);
        }
    }

    pub(crate) fn ask(&mut self, link: u32) -> Option<u32> {
        if link >= self.links {
            return None;
        }
        self.core.next(link)
    }

    pub(crate) fn answer(&mut self, link: u32, outcome: Outcome) -> Option<u32> {
        if link >= self.links || self.core.outstanding(link) == 0 {
            return None;
        }
        Some(self.core.reply(link, outcome))
    }

    pub(crate) fn lose(&mut self, link: u32) {
        if link < self.links && !self.over[link as usize] {
            self.core.over(link);
            self.over[link as usize] = true;
        }
    }

    // The segment has arrived without an answer, where it is open.
    pub(crate) fn settle(&mut self, segment: u32) {
        if segment >= self.segments {
            return;
        }
        if let SegmentState::Open = self.core.state(segment) {
            self.core.settle(segment);
        }
    }

    pub(crate) fn is_greeted(&self, link: u32) -> bool {
        link < self.links && self.core.is_greeted(link)
    }

    pub(crate) fn is_over(&self, link: u32) -> bool {
        link < self.links && self.core.is_over(link)
    }

    pub(crate) fn outstanding(&self, link: u32) -> u32 {
        if link >= self.links {
            return 0;
        }
        self.core.outstanding(link)
    }

    pub(crate) fn oldest(&self, link: u32) -> Option<u32> {
        if link >= self.links {
            return None;
        }
        self.core.oldest(link)
    }

    pub(crate) fn state(&self, segment: u32) -> Option<SegmentState> {
        if segment >= self.segments {
            return None;
        }
        Some(self.core.state(segment))
    }

    pub(crate) fn finished(&self) -> bool {
        self.core.finished()
    }
}
