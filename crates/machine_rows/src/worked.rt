// Which segment is asked for where, call by call.
use crate::trial::Trial;
use pipeline_core::{Outcome, SegmentState};
use std::process::Abort;

// A call, with what it was handed and what it has to answer. Links and segments are counted from 0.
#[derive(Clone, Copy)]
enum Call {
    Greet(u32),
    Ask(u32, Option<u32>),
    Arrived(u32, u32),
    NotHere(u32, u32),
    Lose(u32),
    Settle(u32),
    IsGreeted(u32, bool),
    IsOver(u32, bool),
    Outstanding(u32, u32),
    Oldest(u32, Option<u32>),
    State(u32, SegmentState),
    Finished(bool),
}

// Whether a call is answered so.
fn answers(trial: &mut Trial, call: Call) -> bool {
    match call {
        Call::Ask(link, wanted) => trial.ask(link) == wanted,
        Call::Arrived(link, segment) => trial.answer(link, Outcome::Arrived) == Some(segment),
        Call::NotHere(link, segment) => trial.answer(link, Outcome::NotHere) == Some(segment),
        Call::Greet(link) => {
            trial.greet(link);
            true
        }
        Call::Lose(link) => {
            trial.lose(link);
            true
        }
        Call::Settle(segment) => {
            trial.settle(segment);
            true
        }
        _ => shows(trial, call),
    }
}

// Whether what is shown is that.
fn shows(trial: &Trial, call: Call) -> bool {
    match call {
        Call::IsGreeted(link, wanted) => trial.is_greeted(link) == wanted,
        Call::IsOver(link, wanted) => trial.is_over(link) == wanted,
        Call::Outstanding(link, wanted) => trial.outstanding(link) == wanted,
        Call::Oldest(link, wanted) => trial.oldest(link) == wanted,
        Call::State(segment, wanted) => trial.state(segment) == Some(wanted),
        Call::Finished(wanted) => trial.finished() == wanted,
        _ => false,
    }
}

// Asserts what calls answer, one behind the other.
fn follows<R: Abort>(rt: &R, trial: Option<Trial>, calls: &[Call]) {
    let mut trial = trial.expect(rt, "a trial");
    let mut number: u32 = 0;
    for call in calls {
        assert!(rt; answers(&mut trial, *call), "call {number}, from 0");
        number = number.saturating_add(1);
    }
}

#[test]
fn asks_a_fallback_once_the_first_server_answered(rt: HostRuntime) {
    let calls = [
        Call::Greet(0),
        Call::Greet(1),
        Call::Ask(1, None),
        Call::Ask(0, Some(0)),
        Call::Ask(1, None),
        Call::Ask(0, Some(1)),
        Call::NotHere(0, 0),
        Call::Ask(0, None),
        Call::Ask(1, Some(0)),
        Call::Ask(1, None),
        Call::Arrived(0, 1),
        Call::Ask(1, None),
        Call::NotHere(1, 0),
        Call::State(0, SegmentState::Exhausted),
        Call::Finished(true),
    ];
    follows(&rt, Trial::new(rt.alloc(), &[0, 1], &[0, 1], 2, 2), &calls);
}

#[test]
fn asks_a_fallback_once_the_last_link_of_the_first_server_is_over(rt: HostRuntime) {
    let calls = [
        Call::Greet(0),
        Call::Greet(2),
        Call::Ask(0, Some(0)),
        Call::Lose(0),
        Call::Ask(2, None),
        Call::Lose(1),
        Call::Ask(2, Some(0)),
        Call::Arrived(2, 0),
        Call::Ask(2, Some(1)),
    ];
    let trial = Trial::new(rt.alloc(), &[0, 0, 1], &[0, 1], 3, 1);
    follows(&rt, trial, &calls);
}

#[test]
fn asks_no_more_than_the_depth(rt: HostRuntime) {
    let calls = [
        Call::Ask(0, None),
        Call::Greet(0),
        Call::Greet(1),
        Call::Ask(0, Some(0)),
        Call::Ask(0, Some(1)),
        Call::Ask(0, None),
        Call::Outstanding(0, 2),
        Call::Ask(1, Some(2)),
        Call::Outstanding(1, 1),
    ];
    follows(&rt, Trial::new(rt.alloc(), &[0, 0], &[0], 6, 2), &calls);
}

#[test]
fn answers_the_oldest(rt: HostRuntime) {
    let calls = [
        Call::Greet(0),
        Call::Ask(0, Some(0)),
        Call::Ask(0, Some(1)),
        Call::Oldest(0, Some(0)),
        Call::Arrived(0, 0),
        Call::State(0, SegmentState::Arrived),
        Call::Ask(0, Some(2)),
        Call::NotHere(0, 1),
        Call::State(1, SegmentState::Exhausted),
        Call::Arrived(0, 2),
        Call::Oldest(0, None),
        Call::Finished(false),
    ];
    follows(&rt, Trial::new(rt.alloc(), &[0], &[0], 4, 2), &calls);
}

#[test]
fn gives_back_what_a_lost_link_held(rt: HostRuntime) {
    let calls = [
        Call::Greet(0),
        Call::Greet(1),
        Call::Ask(0, Some(0)),
        Call::Ask(0, Some(1)),
        Call::Ask(1, Some(2)),
        Call::State(1, SegmentState::Outstanding(0)),
        Call::Lose(0),
        Call::State(1, SegmentState::Open),
        Call::Outstanding(0, 0),
        Call::Ask(0, None),
        Call::Ask(1, Some(0)),
        Call::Lose(1),
        Call::State(2, SegmentState::Exhausted),
        Call::Finished(true),
    ];
    follows(&rt, Trial::new(rt.alloc(), &[0, 0], &[0], 3, 2), &calls);
}

#[test]
fn asks_for_none_that_has_arrived_already(rt: HostRuntime) {
    let calls = [
        Call::Settle(3),
        Call::Settle(0),
        Call::Settle(1),
        Call::State(0, SegmentState::Arrived),
        Call::State(2, SegmentState::Open),
        Call::IsGreeted(0, false),
        Call::Greet(0),
        Call::Greet(1),
        Call::IsGreeted(0, true),
        Call::Ask(0, Some(2)),
        Call::Ask(0, None),
        Call::NotHere(0, 2),
        Call::Ask(1, Some(2)),
        Call::Ask(1, None),
        Call::Lose(0),
        Call::IsOver(0, true),
        Call::Arrived(1, 2),
        Call::Finished(true),
    ];
    follows(&rt, Trial::new(rt.alloc(), &[0, 1], &[0, 1], 4, 3), &calls);
}
