// What stands between the system and the top call: the words, the moment, and what is said to a person.
ghost use Rattle.std.specs.Prelude.{◌≤◌};
ghost use Rattle.limits.specs.declared.TheConstants.{LAST_MOMENT};

use crate::explain::{explain_fault, explain_memory, explain_words, hint, wants_hints};
use crate::help::Page;
use command_words::refused_word;
use limits::LAST_MOMENT;
use lists::Memory;
use run_ends::{End, LineBuffer, status, write_line};
use std::env::{Env, FillError};
use std::io::ErrorKind;
use std::time::{SystemTime, UNIX_EPOCH};
use std::{env, io};

// The most bytes that the system hands over as one word.
const LONGEST_WORD: usize = 131_072;

// The greatest moment that the top call takes, in seconds of Unix time.
/// The words behind the program's name, or the status for words that can't be had, which is told then.
pub(crate) fn command_line(rt: &HostRuntime) -> Result<Vec<String>, u8> {
    match all_words(rt) {
        Ok(words) => Ok(words),
        Err(error) if error.kind() == ErrorKind::InvalidData => Err(refuse_not_text(rt)),
        Err(_) => Err(say_no_memory(rt)),
    }
}

fn all_words(rt: &HostRuntime) -> io::Result<Vec<String>> {
    let words = env::args(rt)?.skip(1).collect(rt.alloc())?;
    Ok(words)
}

// Says the line of an end that comes before the top call, or in place of it, and answers its status.
fn say_end(rt: &HostRuntime, end: End) -> u8 {
    let mut line: LineBuffer = [0; 160];
    let len = write_line(&end, &mut line);
    let _ = rt
        .stderr()
        .print(str::from_utf8(&line[..len]).unwrap_or(""));
    status(&end)
}

fn say_no_memory(rt: &HostRuntime) -> u8 {
    let status = say_end(rt, End::NoMemory);
    if wants_hints(rt) {
        explain_memory(rt);
    }
    status
}

// Names the first refused word where one is no text. All words are judged, since a name that is given later changes what a
// path has to be; one that is no text stands as an empty word, which is no command, key or value.
fn refuse_not_text(rt: &HostRuntime) -> u8 {
    let Ok((words, not_text)) = words_of_text(rt) else {
        return say_no_memory(rt);
    };
    let refused = refused_word(&words).unwrap_or(not_text).min(not_text);
    let status = say_end(rt, End::WordsRefused(refused));
    if wants_hints(rt) {
        if refused < not_text {
            explain_words(rt, &words);
        } else {
            hint(rt, "that word is not UTF-8 text");
        }
    }
    status
}

// The words, one that is not UTF-8 standing as an empty one, and the number of the first such word.
fn words_of_text(rt: &HostRuntime) -> Result<(Vec<String>, u64), Memory> {
    let mut words = Vec::new(rt.alloc());
    let mut not_text = 0;
    let mut buffer = vec![in rt.alloc(); 0u8; LONGEST_WORD]?;
    for number in 1..usize::MAX {
        let Some(word) = word_of_text(rt, number, &mut buffer) else {
            break;
        };
        if word.is_none() && not_text == 0 {
            not_text = number as u64;
        }
        words.push(String::from_str(rt.alloc(), word.unwrap_or(""))?)?;
    }
    Ok((words, not_text))
}

// The word of a number, if there is one, as text, if it is that.
fn word_of_text<'a>(
    rt: &HostRuntime,
    number: usize,
    buffer: &'a mut [u8],
) -> Option<Option<&'a str>> {
    match rt.arg(number, buffer) {
        Ok(len) => Some(str::from_utf8(&buffer[..len]).ok()),
        Err(FillError::TooLong) => Some(None),
        Err(FillError::NotPresent) => None,
    }
}

/// The moment by the clock, in seconds of Unix time, or 0 where the clock doesn't tell it.
pub(crate) fn moment_of(rt: &HostRuntime) -> u64
    ensures { result ≤ LAST_MOMENT }
{
    match SystemTime::now(rt) {
        Ok(now) => match now.duration_since(UNIX_EPOCH) {
            Ok(passed) => passed.as_secs().min(LAST_MOMENT),
            Err(_) => 0,
        },
        Err(_) => 0,
    }
}

/// Prints a page of help, and answers the status.
pub(crate) fn print_help(rt: &HostRuntime, page: &Page) -> u8 {
    let printed = rt.stdout().print(format_args!(
        "{}{}{}",
        page.opening, page.middle, page.closing
    ));
    match printed {
        Ok(()) => 0,
        Err(error) => say_output_fault(rt, &error),
    }
}

/// Says that standard output failed, and why, and answers the status.
pub(crate) fn say_output_fault(rt: &HostRuntime, reason: &io::Error) -> u8 {
    let status = say_end(rt, End::OutputFault);
    if wants_hints(rt) {
        explain_fault(rt, "standard output", Some(reason));
    }
    status
}

/// The word behind a key, where the key stands among the words.
pub(crate) fn value_of<'a>(words: &'a [String], key: &str) -> Option<&'a str> {
    for at in 1..words.len().saturating_sub(1) {
        if at % 2 == 1 && words[at].as_str() == key {
            return Some(words[at + 1].as_str());
        }
    }
    None
}
