// Values and objects in memory, made of what a test writes down.
ghost use Rattle.std.specs.Prelude.{◌≡◌, IfOk};

use io_memory::{MemInput, MemSink, ScriptLinks, Turn};
use lists::{Bytes, List, Memory};
use std::alloc::Global;

/// A list of these bytes.
pub fn bytes_of(alloc: Global, text: &[u8]) -> Result<Bytes, Memory>
    ensures { IfOk result (λ bytes. bytes ≡ text.now) }
{
    let mut bytes = Bytes::new(alloc);
    match bytes.extend(text) {
        Ok(()) => Ok(bytes),
        Err(Memory) => Err(Memory),
    }
}

/// A list of these numbers.
pub fn numbers_of(alloc: Global, numbers: &[u64]) -> Result<List<u64>, Memory> {
    let mut list = List::new(alloc);
    for number in numbers {
        list.push(*number)?;
    }
    Ok(list)
}

/// The words of a command line.
pub fn words_of(alloc: Global, words: &[&str]) -> Result<Vec<String>, Memory> {
    let mut list = Vec::new(alloc);
    for word in words {
        list.push(String::from_str(alloc, word)?)?;
    }
    Ok(list)
}

/// An input of these files. The calls of these numbers fail.
pub fn files_of(
    alloc: Global,
    files: &[(&str, &[u8])],
    failing: &[u64],
) -> Result<MemInput, Memory> {
    let mut list = List::new(alloc);
    for (name, content) in files {
        list.push((bytes_of(alloc, name.as_bytes())?, bytes_of(alloc, content)?))?;
    }
    Ok(MemInput::new(list, numbers_of(alloc, failing)?))
}

/// A sink of which the writes of these numbers fail.
pub fn sink_failing(alloc: Global, numbers: &[u64]) -> Result<MemSink, Memory> {
    MemSink::new(alloc, numbers_of(alloc, numbers)?)
}

/// Links of which the first gives these pieces, and then ends. No second one can be opened. The calls of these numbers fail.
pub fn links_of(alloc: Global, pieces: &[&[u8]], failing: &[u64]) -> Result<ScriptLinks, Memory> {
    slow_links_of(alloc, 0, pieces, failing)
}

/// The same, behind so many receives that find nothing.
pub fn slow_links_of(
    alloc: Global,
    quiet: u32,
    pieces: &[&[u8]],
    failing: &[u64],
) -> Result<ScriptLinks, Memory> {
    let mut script = List::new(alloc);
    for _ in 0..quiet {
        script.push(Turn::Quiet)?;
    }
    give(alloc, pieces, &mut script)?;
    script.push(Turn::End)?;
    links_after(alloc, script, failing)
}

/// Links of which the first gives these pieces, and then is quiet. No second one can be opened. The calls of these numbers
/// fail.
pub fn quiet_links_of(
    alloc: Global,
    pieces: &[&[u8]],
    failing: &[u64],
) -> Result<ScriptLinks, Memory> {
    let mut script = List::new(alloc);
    give(alloc, pieces, &mut script)?;
    links_after(alloc, script, failing)
}

/// The same, of which the k-th send takes at most the k-th of these numbers of bytes; behind them a send takes all.
pub fn taking_links_of(
    alloc: Global,
    pieces: &[&[u8]],
    failing: &[u64],
    takes: &[usize],
) -> Result<ScriptLinks, Memory> {
    let mut script = List::new(alloc);
    give(alloc, pieces, &mut script)?;
    let mut scripts = List::new(alloc);
    scripts.push(script)?;
    let mut most = List::new(alloc);
    for count in takes {
        most.push(*count)?;
    }
    ScriptLinks::with_sends(alloc, scripts, numbers_of(alloc, failing)?, most)
}

/// Links of which none can be opened.
pub fn no_links(alloc: Global) -> Result<ScriptLinks, Memory> {
    ScriptLinks::new(alloc, List::new(alloc), List::new(alloc))
}

fn give(alloc: Global, pieces: &[&[u8]], script: &mut List<Turn>) -> Result<(), Memory> {
    for piece in pieces {
        script.push(Turn::Give(bytes_of(alloc, piece)?))?;
    }
    Ok(())
}

// Links of which the first follows this script.
fn links_after(alloc: Global, script: List<Turn>, failing: &[u64]) -> Result<ScriptLinks, Memory> {
    let mut scripts = List::new(alloc);
    scripts.push(script)?;
    ScriptLinks::new(alloc, scripts, numbers_of(alloc, failing)?)
}

/// A text that has a line so many times between its front and its back.
pub fn repeated(
    alloc: Global,
    front: &[u8],
    line: &[u8],
    count: u32,
    back: &[u8],
) -> Result<Bytes, Memory> {
    let mut text = bytes_of(alloc, front)?;
    for _ in 0..count {
        text.extend(line)?;
    }
    text.extend(back)?;
    Ok(text)
}
