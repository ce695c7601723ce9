// What is found by going over the links or the segments.
ghost use Rattle.std.specs.Prelude.{◌≡◌, ◌<◌, ◌≤◌, ◌&&◌, ℕ, false, length, nat_lt, Some, slice_get};
ghost use Rattle.pipeline_core.specs.Links.{has_link_left};
ghost use Rattle.pipeline_core.specs.Searches.{all_from, forgotten_at, is_arrived_at, is_done_with, waits_for};
ghost use Rattle.limits.specs.declared.TheConstants.{MOST_SEGMENTS, MOST_SERVERS};

use crate::link::Link;
use crate::segment::Segment;
use limits::MOST_SERVERS;

// Whether each server has answered the segment or has no link left.
pub(crate) fn is_spent(links: &[Link], segment: &Segment, servers: u32) -> bool
    requires { servers ≤ MOST_SERVERS }
    ensures { result ≡ all_from (is_done_with links.now (Some segment.now)) 0 servers }
{
    for server in 0..servers {
        if !segment.is_answered_by(server) && has_link_left(links, server) {
            return false;
        }
    }
    true
}

// Whether a server has a link that isn't over.
pub(crate) fn has_link_left(links: &[Link], server: u32) -> bool
    ensures { result ≡ has_link_left links.now server }
{
    for link in links {
        if link.server() == server && !link.is_over() {
            return true;
        }
    }
    false
}

// Which servers have a lower level than this one, and a link left.
pub(crate) fn servers_waited_for(links: &[Link], levels: &[u8], server: u32) -> [bool; MOST_SERVERS]
    requires few { length levels.now ≤ MOST_SERVERS }
    requires server { server < length levels.now }
    ensures each { (other : ℕ) → other < length levels.now → slice_get result other ≡ Some (waits_for links.now levels.now server other) }
{
    let level = levels[server as usize];
    let mut waits = [false; MOST_SERVERS];
    for other in 0..levels.len() {
        waits[other] = is_waited_for(links, levels[other], level, other as u32);
    }
    waits
}

// Whether a server of this level, which may be lower than another one, has a link left.
fn is_waited_for(links: &[Link], level: u8, asking: u8, server: u32) -> bool
    ensures { result ≡ (nat_lt level asking && has_link_left links.now server) }
{
    level < asking && has_link_left(links, server)
}

// The first segment from a place on that hasn't arrived. Where there is none, a place behind all of them.
pub(crate) fn first_to_come(segments: &[Segment], from: u32) -> u32
    requires few { length segments.now ≤ MOST_SEGMENTS }
    ensures onward { from ≤ result }
    ensures waited { result < length segments.now → is_arrived_at (slice_get segments.now result) ≡ false }
{
    let end = segments.len() as u32;
    for at in from..end {
        if !segments[at as usize].has_arrived() {
            return at;
        }
    }
    from.max(end)
}

// No segment is held by the link any more.
pub(crate) fn forget(holders: &mut [Option<u32>], link: u32)
    ensures len { length holders.new ≡ length holders.old }
    ensures each { (k : ℕ) → slice_get holders.new k ≡ forgotten_at link (slice_get holders.old k) }
{
    for holder in holders.iter_mut() {
        if *holder == Some(link) {
            *holder = None;
        }
    }
}
