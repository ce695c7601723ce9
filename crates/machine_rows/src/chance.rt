// Lists of calls by chance, on a core and on plain lists.
ghost use Rattle.std.specs.Prelude.{◌≤◌};

use crate::plain::Plain;
use crate::trial::Trial;
use pipeline_core::{Outcome, SegmentState};
use std::process::Abort;

/// Numbers by chance: a xorshift of 32 bits.
#[derive(Drop)]
struct Chance {
    state: u32,
}

impl Chance {
    // At most the bound, and below it where it isn't 0.
    fn below(&mut self, bound: u32) -> u32
        ensures { result ≤ bound }
    {
        let mut x = self.state;
        x ^= (x % 524288) * 8192;
        x ^= x / 131072;
        x ^= (x % 134217728) * 32;
        self.state = x;
        if bound == 0 { 0 } else { (x / 16) % bound }
    }
}

/// A core and plain lists for the same links.
#[derive(Drop)]
struct Pair {
    trial: Trial,
    plain: Plain,
    links: u32,
    servers: u32,
    segments: u32,
}

fn pair_of<R: Abort + AllocGlobal>(rt: &R, chance: &mut Chance) -> Pair {
    let links = 1 + chance.below(8);
    let servers = 1 + chance.below(4);
    let segments = chance.below(13);
    let depth = 1 + chance.below(3);
    let mut server_of_link = [0u32; 8];
    for k in 0..8usize {
        server_of_link[k] = chance.below(servers);
    }
    let level_of_server = levels_of(chance);
    assert!(rt; links <= 8 && servers <= 4);
    let trial = Trial::new(
        rt.alloc(),
        &server_of_link[..links as usize],
        &level_of_server[..servers as usize],
        segments,
        depth,
    );
    Pair {
        trial: trial.expect(rt, "a trial"),
        plain: Plain::new(rt.alloc(), server_of_link, level_of_server, segments, depth),
        links,
        servers,
        segments,
    }
}

fn levels_of(chance: &mut Chance) -> [u8; 4] {
    let mut level_of_server = [0u8; 4];
    for k in 0..4usize {
        level_of_server[k] = chance.below(3) as u8;
    }
    level_of_server
}

// A call on both.
#[derive(Clone, Copy)]
enum Call {
    Lose(u32),
    Greet(u32),
    Settle(u32),
    Ask(u32),
    Answer(u32, Outcome),
}

// A call by chance on so many links and segments.
fn call_of(chance: &mut Chance, links: u32, segments: u32) -> Call {
    let link = chance.below(links);
    let kind = chance.below(32);
    if kind == 31 && segments > 0 {
        return Call::Settle(chance.below(segments));
    }
    match kind {
        0 => Call::Lose(link),
        1 | 2 | 3 | 4 => Call::Greet(link),
        _ if kind < 18 => Call::Ask(link),
        _ if kind < 24 => Call::Answer(link, Outcome::Arrived),
        _ => Call::Answer(link, Outcome::NotHere),
    }
}

// One call on both. Whether they answer the same.
fn agree_on_a_call<R: Abort>(rt: &R, pair: &mut Pair, call: Call) -> bool {
    match call {
        Call::Lose(link) => {
            pair.trial.lose(link);
            pair.plain.lose(link);
            true
        }
        Call::Greet(link) => {
            pair.trial.greet(link);
            pair.plain.greet(link);
            true
        }
        Call::Settle(segment) if segment < pair.segments => {
            pair.trial.settle(segment);
            pair.plain.settle(segment, pair.links, pair.servers);
            true
        }
        Call::Settle(_) => true,
        Call::Ask(link) => {
            let wanted = pair.plain.ask(rt, link, pair.links, pair.servers);
            pair.trial.ask(link) == wanted
        }
        Call::Answer(link, outcome) => {
            pair.trial.answer(link, outcome) == pair.plain.answer(link, outcome)
        }
    }
}

// Whether both show the same.
fn agree_on_what_is_shown(pair: &Pair) -> bool {
    for link in 0..pair.links {
        if pair.trial.outstanding(link) != pair.plain.outstanding(link)
            || pair.trial.oldest(link) != pair.plain.oldest(link)
            || pair.trial.is_greeted(link) != pair.plain.is_greeted(link)
            || pair.trial.is_over(link) != pair.plain.is_over(link)
        {
            return false;
        }
    }
    let mut decided = true;
    for segment in 0..pair.segments {
        let state = pair.plain.state(segment, pair.links, pair.servers);
        if pair.trial.state(segment) != Some(state) {
            return false;
        }
        decided = decided && (state == SegmentState::Arrived || state == SegmentState::Exhausted);
    }
    pair.trial.finished() == decided
}

// Asserts that a list of at most 40 calls is answered alike, and the same is shown behind the last.
fn agree_on_a_list<R: Abort + AllocGlobal>(rt: &R, mut chance: Chance) -> Chance {
    let mut pair = pair_of(rt, &mut chance);
    let calls = chance.below(41);
    for _ in 0..calls {
        let call = call_of(&mut chance, pair.links, pair.segments);
        assert!(rt; agree_on_a_call(rt, &mut pair, call));
    }
    assert!(rt; agree_on_what_is_shown(&pair));
    chance
}

#[test]
fn lists_of_calls_by_chance_agree_with_plain_lists(rt: HostRuntime) {
    let mut chance = Chance { state: 2463534242 };
    for _ in 0..3000u32 {
        chance = agree_on_a_list(&rt, chance);
    }
}
