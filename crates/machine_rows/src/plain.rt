// The same calls on plain lists, as a reader of the rules would write them.
use pipeline_core::{Outcome, SegmentState};
use std::alloc::Global;
use std::process::Abort;

/// What was asked for and not answered, in order, as links and segments; and what is known of links and segments.
#[derive(Drop)]
pub(crate) struct Plain {
    asked: Vec<(u32, u32)>,
    servers: [u32; 8],
    levels: [u8; 4],
    greeted: [bool; 64],
    over: [bool; 64],
    arrived: [bool; 64],
    answered: [bool; 64],
    segments: u32,
    depth: u32,
}

fn is_marked(marks: &[bool; 64], index: u32) -> bool {
    index < 64 && marks[index as usize]
}

fn mark(marks: &mut [bool; 64], index: u32) {
    if index < 64 {
        marks[index as usize] = true;
    }
}

// The place of a segment's mark for a server.
fn place(segment: u32, server: u32) -> u32 {
    segment.wrapping_mul(4).wrapping_add(server)
}

impl Plain {
    pub(crate) fn new(
        alloc: Global,
        servers: [u32; 8],
        levels: [u8; 4],
        segments: u32,
        depth: u32,
    ) -> Self {
        Plain {
            asked: Vec::new(alloc),
            servers,
            levels,
            greeted: [false; 64],
            over: [false; 64],
            arrived: [false; 64],
            answered: [false; 64],
            segments,
            depth,
        }
    }

    fn server(&self, link: u32) -> u32 {
        if link < 8 {
            self.servers[link as usize]
        } else {
            0
        }
    }

    fn level(&self, server: u32) -> u8 {
        if server < 4 {
            self.levels[server as usize]
        } else {
            0
        }
    }

    fn has_link_left(&self, server: u32, links: u32) -> bool {
        for link in 0..links {
            if self.server(link) == server && !is_marked(&self.over, link) {
                return true;
            }
        }
        false
    }

    fn is_done(&self, server: u32, segment: u32, links: u32) -> bool {
        is_marked(&self.answered, place(segment, server)) || !self.has_link_left(server, links)
    }

    pub(crate) fn state(&self, segment: u32, links: u32, servers: u32) -> SegmentState {
        if is_marked(&self.arrived, segment) {
            return SegmentState::Arrived;
        }
        for (link, other) in &self.asked {
            if *other == segment {
                return SegmentState::Outstanding(*link);
            }
        }
        for server in 0..servers {
            if !self.is_done(server, segment, links) {
                return SegmentState::Open;
            }
        }
        SegmentState::Exhausted
    }

    pub(crate) fn outstanding(&self, link: u32) -> u32 {
        let mut count = 0u32;
        for (other, _) in &self.asked {
            if *other == link {
                count = count.wrapping_add(1);
            }
        }
        count
    }

    pub(crate) fn oldest(&self, link: u32) -> Option<u32> {
        for (other, segment) in &self.asked {
            if *other == link {
                return Some(*segment);
            }
        }
        None
    }

    pub(crate) fn greet(&mut self, link: u32) {
        if !is_marked(&self.over, link) {
            mark(&mut self.greeted, link);
        }
    }

    fn is_turn(&self, server: u32, segment: u32, links: u32, servers: u32) -> bool {
        for other in 0..servers {
            if self.level(other) < self.level(server) && !self.is_done(other, segment, links) {
                return false;
            }
        }
        true
    }

    pub(crate) fn ask<R: Abort>(
        &mut self,
        rt: &R,
        link: u32,
        links: u32,
        servers: u32,
    ) -> Option<u32> {
        let may = is_marked(&self.greeted, link) && !is_marked(&self.over, link);
        if !may || self.outstanding(link) >= self.depth {
            return None;
        }
        let server = self.server(link);
        for segment in 0..self.segments {
            if self.state(segment, links, servers) == SegmentState::Open
                && !is_marked(&self.answered, place(segment, server))
                && self.is_turn(server, segment, links, servers)
            {
                self.asked.push((link, segment)).expect(rt, "an entry");
                return Some(segment);
            }
        }
        None
    }

    // Takes the first entry of this link away.
    fn take(&mut self, link: u32) -> Option<u32> {
        for k in 0..self.asked.len() {
            let (other, segment) = self.asked[k];
            if other == link {
                self.asked.remove(k);
                return Some(segment);
            }
        }
        None
    }

    pub(crate) fn answer(&mut self, link: u32, outcome: Outcome) -> Option<u32> {
        let segment = self.take(link)?;
        match outcome {
            Outcome::Arrived => mark(&mut self.arrived, segment),
            Outcome::NotHere => {
                let server = self.server(link);
                mark(&mut self.answered, place(segment, server));
            }
        }
        Some(segment)
    }

    pub(crate) fn settle(&mut self, segment: u32, links: u32, servers: u32) {
        if self.state(segment, links, servers) == SegmentState::Open {
            mark(&mut self.arrived, segment);
        }
    }

    pub(crate) fn is_greeted(&self, link: u32) -> bool {
        is_marked(&self.greeted, link)
    }

    pub(crate) fn is_over(&self, link: u32) -> bool {
        is_marked(&self.over, link)
    }

    pub(crate) fn lose(&mut self, link: u32) {
        mark(&mut self.over, link);
        for _ in 0..32u32 {
            self.take(link);
        }
    }
}
