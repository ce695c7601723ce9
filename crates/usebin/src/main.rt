//! usebin: the program. It makes the real objects, calls the top call, and explains to a person how that ended.
#![tactic(auto)]

mod edge;
mod explain;
mod held;
mod help;
mod last_line;
mod meaning;
mod named_input;

use edge::{command_line, moment_of, print_help, say_output_fault, value_of};
use explain::{explain_end, explain_fault, explain_memory, explain_words, wants_hints};
use held::hold_closed_streams;
use help::help_for;
use io_system::{ErrSink, OutSink, TcpLinks};
use last_line::LastLine;
use named_input::NamedInput;
use std::process::ExitCode;
use usebin_cli::{NoStore, usebin};

fn main(rt: HostRuntime) -> ExitCode {
    let held = match hold_closed_streams(&rt) {
        Ok(held) => held,
        Err(error) => return ExitCode::from(say_output_fault(&rt, &error)),
    };
    let status = answer(&rt);
    drop(held);
    ExitCode::from(status)
}

// Answers what the words ask for, and says the status.
fn answer(rt: &HostRuntime) -> u8 {
    let words = match command_line(rt) {
        Ok(words) => words,
        Err(status) => return status,
    };
    match help_for(&words) {
        Some(text) => print_help(rt, &text),
        None => run(rt, &words),
    }
}

// Does what the words ask for with the files of the system, its standard streams and links over TCP, and explains the status
// below the line that the top call wrote, unless that line couldn't be written.
fn run(rt: &HostRuntime, words: &[String]) -> u8 {
    let mut input = NamedInput::new(rt.alloc(), rt);
    let mut links = TcpLinks::new(rt.alloc(), rt);
    let mut out = OutSink::new(rt.stdout());
    let mut err = LastLine::new(ErrSink::new(rt.stderr()));
    let status = usebin(
        rt.alloc(),
        words,
        &mut input,
        &mut NoStore::new(),
        &mut links,
        &mut out,
        &mut err,
        moment_of(rt),
    );
    let Some(line) = err.line() else {
        return status;
    };
    if status == 0 || !wants_hints(rt) {
        return status;
    }
    match status {
        2 => explain_words(rt, words),
        3 => explain_fault(rt, input.path().unwrap_or("a file"), input.reason()),
        4 => explain_fault(rt, "standard output", out.reason()),
        5 => explain_fault(
            rt,
            value_of(words, "--server").unwrap_or("the server"),
            links.reason(),
        ),
        7 => explain_memory(rt),
        _ => explain_end(rt, line),
    }
    status
}
