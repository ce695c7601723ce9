// What is said to a person below the line of a status.

use crate::help::{COMMAND_LIST, CommandHelp, command_help};
use crate::meaning::meaning_of;
use command_words::refused_word;
use run_ends::read_line;
use std::env::Env;
use std::fmt::Display;
use std::fs::File;
use std::io::{self, Read};

// What of the system's list of limits is read.
const LIMITS_LEN: usize = 2048;

/// Whether a person wants explanations: not where `USEBIN_HINTS` is `no`.
pub(crate) fn wants_hints(rt: &HostRuntime) -> bool {
    let mut value = [0; 3];
    match rt.var("USEBIN_HINTS", &mut value) {
        Ok(len) => &value[..len] != b"no".as_slice(),
        Err(_) => true,
    }
}

/// Says one line to a person.
pub(crate) fn hint(rt: &HostRuntime, line: impl Display + Drop) {
    let _ = rt.stderr().println(format_args!("  {line}"));
}

/// Names what failed, and the system's reason for it.
pub(crate) fn explain_fault(
    rt: &HostRuntime,
    what: impl Display + Drop,
    reason: Option<&io::Error>,
) {
    match reason {
        Some(error) => hint(rt, format_args!("{what}: {error}")),
        None => hint(rt, what),
    }
}

/// Says what the end means whose line this is.
pub(crate) fn explain_end(rt: &HostRuntime, line: &[u8]) {
    let Some(end) = read_line(line) else {
        return;
    };
    if let Some(meaning) = meaning_of(&end) {
        hint(rt, meaning);
    }
}

/// Says which limit of memory stands.
pub(crate) fn explain_memory(rt: &HostRuntime) {
    let mut text = [0; LIMITS_LEN];
    match address_space_limit(rt, &mut text) {
        Some(limit) if limit != "unlimited" => hint(
            rt,
            format_args!("the process may have {limit} bytes of memory: `ulimit -v` sets this"),
        ),
        _ => hint(
            rt,
            "the process has no limit of its own: the machine, or what it runs in, has no more memory",
        ),
    }
}

// The limit of the process's address space, as the system writes it.
fn address_space_limit<'a>(rt: &HostRuntime, text: &'a mut [u8]) -> Option<&'a str> {
    let mut file = File::open(rt, "/proc/self/limits").ok()?;
    let len = file.read(text).ok()?;
    let text = str::from_utf8(text.get(..len)?).ok()?;
    let (_, behind) = text.split_once("Max address space")?;
    behind.split_whitespace().next()
}

/// Says which word is refused, and why, and what may stand there.
pub(crate) fn explain_words(rt: &HostRuntime, words: &[String]) {
    let Some(number) = refused_word(words) else {
        return;
    };
    let Some(help) = words.first().and_then(|word| command_help(word.as_str())) else {
        explain_command(rt, words);
        return;
    };
    let at = (number as usize).saturating_sub(1);
    if at % 2 == 1 {
        explain_key(rt, words, at, &help);
    } else {
        explain_value(rt, words, at);
    }
    hint(rt, format_args!("{} takes:", help.name));
    let _ = rt.stderr().print(help.keys);
}

fn explain_command(rt: &HostRuntime, words: &[String]) {
    match words.first() {
        Some(word) => hint(rt, format_args!("{:?} is no command", word.as_str())),
        None => hint(rt, "no command is given"),
    }
    hint(rt, "the commands are:");
    let _ = rt.stderr().print(COMMAND_LIST);
}

// Why the word in the place of a key is refused.
fn explain_key(rt: &HostRuntime, words: &[String], at: usize, help: &CommandHelp) {
    match words.get(at) {
        Some(key) if stands_before(words, at, key.as_str()) => {
            hint(rt, format_args!("{:?} is given twice", key.as_str()));
        }
        Some(key) => hint(
            rt,
            format_args!("{:?} is no key of {}", key.as_str(), help.name),
        ),
        None => {
            for key in help.required {
                if !stands_before(words, at, key) {
                    hint(rt, format_args!("{key} has to be given"));
                }
            }
        }
    }
}

// Whether a key stands in a place of keys before another.
fn stands_before(words: &[String], at: usize, key: &str) -> bool {
    for place in 1..at.min(words.len()) {
        if place % 2 == 1 && words[place].as_str() == key {
            return true;
        }
    }
    false
}

// Why the word in the place of a value is refused.
fn explain_value(rt: &HostRuntime, words: &[String], at: usize) {
    let Some(key) = words.get(at.saturating_sub(1)) else {
        return;
    };
    let key = key.as_str();
    match words.get(at) {
        None => hint(rt, format_args!("{key} has no value behind it")),
        Some(value) if key == "--input" && !value.is_empty() => hint(
            rt,
            format_args!(
                "the part of {:?} behind its last slash is no name for a file: give one by --name",
                value.as_str()
            ),
        ),
        Some(value) => hint(rt, format_args!("{key} can't be {:?}", value.as_str())),
    }
}
