// What the tests hand in.
use lists::Memory;
use std::alloc::Global;
use std::process::Abort;

/// The words of a command line.
pub(crate) fn words_of<R: Abort + AllocGlobal>(rt: &R, words: &[&str]) -> Vec<String> {
    row_fixtures::words_of(rt.alloc(), words).expect(rt, "words")
}

/// A pair of a key and its value, and then those of these pairs that are of other keys than this one and than another.
pub(crate) fn words_with<R: Abort + AllocGlobal>(
    rt: &R,
    pairs: &[(&str, &str)],
    key: &str,
    value: &str,
    without: &str,
) -> Vec<String> {
    let words = words_of(rt, &[key, value]);
    more_words(rt.alloc(), words, pairs, key, without).expect(rt, "words")
}

fn more_words(
    alloc: Global,
    mut words: Vec<String>,
    pairs: &[(&str, &str)],
    key: &str,
    without: &str,
) -> Result<Vec<String>, Memory> {
    for (other, given) in pairs {
        if *other != key && *other != without {
            words.push(String::from_str(alloc, other)?)?;
            words.push(String::from_str(alloc, given)?)?;
        }
    }
    Ok(words)
}
