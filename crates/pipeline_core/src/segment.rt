// One segment: whether it arrived, and which servers have answered that they haven't got it.
ghost use Rattle.std.specs.Prelude.{◌≡◌, ◌<◌, ◌≤◌, ◌&&◌, false, not, slice_index_or};
ghost use Rattle.pipeline_core.specs.Pipeline.{unanswered, with_arrival, with_outcome};
ghost use Rattle.pipeline_core.specs.Searches.{all_from, passes};
ghost use Rattle.limits.specs.declared.TheConstants.{MOST_SERVERS};

use crate::state::Outcome;
use limits::MOST_SERVERS;
use std::marker::Model;

#[derive(Clone, Copy, Drop)]
pub struct Segment {
    arrived: bool,
    answered: [bool; MOST_SERVERS],
}

impl Model for Segment {
    ghost use Rattle.pipeline_core.specs.SegmentAt.{SegmentAt};

    ghost Value = { SegmentAt };

    ghost view = { λ s. record { arrived = s.arrived; answered = s.answered } };

    ghost inverse = { λ d. record { arrived = d.arrived; answered = d.answered } };
}

impl Segment {
    pub fn new() -> Self
        ensures { result ≡ unanswered }
    {
        Segment {
            arrived: false,
            answered: [false; MOST_SERVERS],
        }
    }

    pub fn has_arrived(&self) -> bool
        ensures { result ≡ self.now.arrived }
    {
        self.arrived
    }

    pub fn is_answered_by(&self, server: u32) -> bool
        requires { server < MOST_SERVERS }
        ensures { result ≡ slice_index_or self.now.answered server false }
    {
        self.answered[server as usize]
    }

    // Whether each of the servers that are waited for has answered.
    pub fn is_passed(&self, waits: &[bool; MOST_SERVERS], servers: u32) -> bool
        requires { servers ≤ MOST_SERVERS }
        ensures { result ≡ all_from (passes waits.now self.now.answered) 0 servers }
    {
        for server in 0..servers {
            if waits[server as usize] && !self.answered[server as usize] {
                return false;
            }
        }
        true
    }

    pub fn arrive(&mut self)
        ensures { self.new ≡ with_arrival self.old }
    {
        self.arrived = true;
    }

    /// What an answer of this server says.
    pub fn note(&mut self, server: u32, outcome: Outcome)
        requires { server < MOST_SERVERS }
        ensures { self.new ≡ with_outcome server outcome self.old }
    {
        match outcome {
            Outcome::Arrived => self.arrive(),
            Outcome::NotHere => self.answered[server as usize] = true,
        }
    }
}
