// One link: its server, whether it may be asked, and the ring of segments that are outstanding on it.
ghost use Rattle.std.specs.Prelude.{◌≡◌, ◌<◌, ◌≤◌, length, Some, IfOk, slice_get};
ghost use Rattle.pipeline_core.specs.Links.{fresh_link, with_greeting, with_asked, without_oldest, with_end, may_ask};
ghost use Rattle.limits.specs.declared.TheConstants.{MOST_DEPTH};

use circular_buffer::HeapCircularBuffer;
use limits::MOST_DEPTH;
use lists::Memory;
use std::alloc::Global;
use std::marker::Model;

#[derive(Drop)]
pub struct Link {
    server: u32,
    greeted: bool,
    over: bool,
    ring: HeapCircularBuffer<u32>,
}

impl Model for Link {
    ghost use Rattle.std.specs.Prelude.{◌≡◌};
    ghost use Rattle.pipeline_core.specs.LinkAt.{LinkAt};
    ghost use Rattle.limits.specs.declared.TheConstants.{MOST_DEPTH};

    ghost Value = { LinkAt };

    ghost view = { λ l. record { server = l.server; greeted = l.greeted; over = l.over; asked = l.ring.items } };

    ghost invariant = { λ l. l.ring.capacity ≡ MOST_DEPTH };
}

impl Link {
    pub fn new(alloc: Global, server: u32) -> Result<Self, Memory>
        ensures { IfOk result (λ link. link ≡ fresh_link server) }
    {
        let ring = HeapCircularBuffer::with_capacity(alloc, MOST_DEPTH as usize)?;
        Ok(Link {
            server,
            greeted: false,
            over: false,
            ring,
        })
    }

    pub fn server(&self) -> u32
        ensures { result ≡ self.now.server }
    {
        self.server
    }

    pub fn is_greeted(&self) -> bool
        ensures { result ≡ self.now.greeted }
    {
        self.greeted
    }

    pub fn is_over(&self) -> bool
        ensures { result ≡ self.now.over }
    {
        self.over
    }

    pub fn count(&self) -> usize
        ensures value { result ≡ length self.now.asked }
        ensures few { result ≤ MOST_DEPTH }
    {
        self.ring.len()
    }

    pub fn oldest(&self) -> Option<u32>
        ensures { result ≡ slice_get self.now.asked 0 }
    {
        self.ring.front().copied()
    }

    pub fn may_ask(&self, depth: u32) -> bool
        ensures { result ≡ may_ask depth self.now }
    {
        self.greeted && !self.over && self.ring.len() < depth as usize
    }

    pub fn greet(&mut self)
        ensures { self.new ≡ with_greeting self.old }
    {
        self.greeted = true;
    }

    pub fn ask(&mut self, segment: u32)
        requires { length self.old.asked < MOST_DEPTH }
        ensures { self.new ≡ with_asked segment self.old }
    {
        self.ring.push_back(segment);
    }

    pub fn take_oldest(&mut self) -> u32
        requires { 0 < length self.old.asked }
        ensures oldest { slice_get self.old.asked 0 ≡ Some result }
        ensures rest { self.new ≡ without_oldest self.old }
    {
        self.ring.pop_front().unwrap()
    }

    pub fn end(&mut self)
        ensures { self.new ≡ with_end self.old }
    {
        self.over = true;
        self.ring.clear();
    }
}
