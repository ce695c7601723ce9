// Where the searches of a core begin, so that none goes over all segments again.
ghost use Rattle.std.specs.Prelude.{◌≡◌, ◌≢◌, ◌<◌, ◌≤◌, ◌+◌, ℕ, Some, slice_get, slice_set, replicate, length};
ghost use Rattle.pipeline_core.specs.Sound.{HasFallen};
ghost use Rattle.limits.specs.declared.TheConstants.{MOST_SEGMENTS, MOST_SERVERS};

use crate::state::Outcome;
use limits::MOST_SERVERS;

#[derive(Drop)]
pub struct Places {
    // Of each server: it can be asked for no segment below this one.
    pub lows: [u32; MOST_SERVERS],
    // No segment from here on was ever asked for, and this one hasn't arrived.
    pub fresh: u32,
    // Each segment below this one has arrived or is exhausted.
    pub decided: u32,
}

impl Places {
    pub fn new() -> Self
        ensures lows { result.lows ≡ replicate MOST_SERVERS 0 }
        ensures fresh { result.fresh ≡ 0 }
        ensures decided { result.decided ≡ 0 }
    {
        Places {
            lows: [0; MOST_SERVERS],
            fresh: 0,
            decided: 0,
        }
    }

    // The server was asked for a segment, the least that it could be asked for.
    pub fn note_asked(&mut self, server: u32, segment: u32)
        requires server { server < MOST_SERVERS }
        requires segment { segment < MOST_SEGMENTS }
        ensures lows { self.new.lows ≡ slice_set self.old.lows server (segment + 1) }
        ensures kept { self.old.fresh ≤ self.new.fresh }
        ensures past { segment < self.new.fresh }
        ensures decided { self.new.decided ≡ self.old.decided }
    {
        self.lows[server as usize] = segment + 1;
        if self.fresh <= segment {
            self.fresh = segment + 1;
        }
    }

    // The server can be asked for none of the segments.
    pub fn note_none(&mut self, server: u32, segments: u32)
        requires server { server < MOST_SERVERS }
        ensures lows { self.new.lows ≡ slice_set self.old.lows server segments }
        ensures fresh { self.new.fresh ≡ self.old.fresh }
        ensures decided { self.new.decided ≡ self.old.decided }
    {
        self.lows[server as usize] = segments;
    }

    // A segment was answered by a server. Where it didn't arrive, others may be asked for it now.
    pub fn note_answer(&mut self, server: u32, segment: u32, outcome: Outcome)
        ensures lows { (other low : ℕ) → slice_get self.new.lows other ≡ Some low → HasFallen self.old.lows server segment outcome other low }
        ensures as_many { length self.new.lows ≡ MOST_SERVERS }
        ensures fresh { self.new.fresh ≡ self.old.fresh }
        ensures decided { self.new.decided ≡ self.old.decided }
    {
        if let Outcome::Arrived = outcome {
            return;
        }
        for other in 0..16u32 {
            let low = self.lows[other as usize];
            self.lows[other as usize] = fallen(low, other, server, segment);
        }
    }

    // A link is over, so that its server may have none left, and others may be asked for any segment.
    pub fn note_over(&mut self)
        ensures lows { self.new.lows ≡ replicate MOST_SERVERS 0 }
        ensures fresh { self.new.fresh ≡ self.old.fresh }
        ensures decided { self.new.decided ≡ self.old.decided }
    {
        self.lows = [0; MOST_SERVERS];
    }
}

// The place of a server after another one has answered a segment. The server that answered keeps its own.
fn fallen(low: u32, other: u32, server: u32, segment: u32) -> u32
    ensures kept { result ≤ low }
    ensures fell { other ≢ server → result ≤ segment }
{
    if other == server || low <= segment {
        low
    } else {
        segment
    }
}
