// Which of the links that wait is heard next.
ghost use Rattle.std.specs.Prelude.{◌<◌, length};

use libc::net::{POLLIN, poll};
use libc::types::pollfd;
use std::alloc::{AllocError, Global};
use std::os::fd::AsRawFd;
use std::time::{Clock, Duration};

// How long a link without bytes is left before it is answered all the same, in milliseconds, so that its quiet receives can be counted.
const QUIET_AFTER: u64 = 20;

// What poll is asked in the place of a link that has no socket: nothing.
const NOTHING: i32 = -1;

/// How long a receive waits for bytes before it is quiet.
pub(crate) fn quiet_after() -> Duration {
    Duration::from_millis(QUIET_AFTER)
}

/// When each link was last answered or heard, by a clock that never goes back, and which one was answered just before.
#[derive(Drop)]
pub(crate) struct Turns {
    heard: Vec<Duration>,
    asked: Vec<pollfd>,
    answered: Option<Answer>,
}

// The link that was answered, and whether it had something to give.
#[derive(Clone, Copy)]
struct Answer {
    link: u32,
    is_ready: bool,
}

impl Turns {
    /// The turns of no link.
    pub(crate) fn new(alloc: Global) -> Self {
        Turns {
            heard: Vec::new(alloc),
            asked: Vec::new(alloc),
            answered: None,
        }
    }

    /// Adds the next link, which has not been heard.
    pub(crate) fn add<R: Clock>(&mut self, system: &R) -> Result<(), AllocError> {
        self.asked.push(pollfd {
            fd: NOTHING,
            events: POLLIN,
            revents: 0,
        })?;
        self.heard.push(now(system))?;
        Ok(())
    }

    /// The place in `waiting` of the link to be heard next, for which it waits up to 20 milliseconds: of those that have something to
    /// give and those that have been left for 20, the one that was answered or heard the longest ago.
    pub(crate) fn first<R: Clock, S: AsRawFd>(
        &mut self,
        system: &R,
        streams: &[Option<S>],
        waiting: &[u32],
    ) -> usize
        requires { 0 < length waiting.now }
        ensures { result < length waiting.now }
    {
        list_sockets(&mut self.asked, streams, waiting);
        let count = waiting.len().min(self.asked.len());
        let left = time_left(&self.heard, waiting, now(system));
        wait(system, &mut self.asked[..count], left);
        let moment = now(system);
        let (place, is_ready) = longest_left(&self.heard, &self.asked, waiting, moment);
        let link = waiting[place];
        self.note(link, moment);
        self.answered = Some(Answer { link, is_ready });
        place
    }

    /// Whether the link was answered just before, and had nothing to give: then a receive has nothing to wait for. Which link was
    /// answered is forgotten.
    pub(crate) fn is_left_quiet(&mut self, link: u32) -> bool {
        match self.answered.take() {
            Some(answer) => answer.link == link && !answer.is_ready,
            None => false,
        }
    }

    /// Notes that a link was heard.
    pub(crate) fn note_heard<R: Clock>(&mut self, system: &R, link: u32) {
        self.note(link, now(system));
    }

    fn note(&mut self, link: u32, moment: Duration) {
        if let Some(heard) = self.heard.get_mut(link as usize) {
            *heard = moment;
        }
    }
}

// The time by a clock that never goes back, or its start where it can't be read.
fn now<R: Clock>(system: &R) -> Duration {
    match system.monotonic() {
        Ok(moment) => moment,
        Err(_) => Duration::ZERO,
    }
}

// Lists the sockets of the links that wait, each in the place of its link.
fn list_sockets<S: AsRawFd>(asked: &mut [pollfd], streams: &[Option<S>], waiting: &[u32]) {
    for (one, link) in asked.iter_mut().zip(waiting) {
        one.fd = match streams.get(*link as usize) {
            Some(Some(stream)) => stream.as_raw_fd(),
            _ => NOTHING,
        };
        one.revents = 0;
    }
}

// How long until the first of the links that wait has been left for 20 milliseconds.
fn time_left(heard: &[Duration], waiting: &[u32], moment: Duration) -> Duration {
    let mut left = quiet_after();
    for link in waiting {
        left = left.min(quiet_after().saturating_sub(time_since(heard, *link, moment)));
    }
    left
}

// How long ago a link was answered or heard.
fn time_since(heard: &[Duration], link: u32, moment: Duration) -> Duration {
    match heard.get(link as usize) {
        Some(heard) => moment.saturating_sub(*heard),
        None => Duration::ZERO,
    }
}

// Waits until a socket has something to give or has ended, and no longer than the time that is left, in whole milliseconds.
fn wait<R: Clock>(system: &R, asked: &mut [pollfd], left: Duration) {
    let millis = left.saturating_add(Duration::from_micros(999)).as_millis();
    if poll(asked, i32::try_from(millis).unwrap_or(0)) < 0 {
        system.sleep(left);
    }
}

// The place of the link that was answered or heard the longest ago, of those that have something to give or have been left for 20
// milliseconds, or of all where there is none; and whether it has something to give. Of two it is the one in front.
fn longest_left(
    heard: &[Duration],
    asked: &[pollfd],
    waiting: &[u32],
    moment: Duration,
) -> (usize, bool)
    requires { 0 < length waiting.now }
    ensures { result.0 < length waiting.now }
{
    let mut first = 0;
    let mut most = (false, Duration::ZERO);
    let mut is_ready = false;
    for (place, link) in waiting.iter().enumerate() {
        let has_some = has_something(asked, place);
        let since = time_since(heard, *link, moment);
        let rank = (has_some || since >= quiet_after(), since);
        if place == 0 || rank > most {
            first = place;
            most = rank;
            is_ready = has_some;
        }
    }
    (first, is_ready)
}

// Whether poll told of the link in a place that it has bytes or has ended.
fn has_something(asked: &[pollfd], place: usize) -> bool {
    match asked.get(place) {
        Some(one) => one.revents != 0,
        None => false,
    }
}
