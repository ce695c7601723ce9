// Reading the start tags of an NZB text.
ghost use Rattle.std.specs.Prelude.{◌≡◌, ◌≤◌, ◌<◌, length, drop, not, true, is_some, Err, IfOk, OnErr, OnOk, ◌++◌, ◌∷◌, []};
ghost use Rattle.std.specs.Bool.{OnTrue, OnFalse};
ghost use Rattle.nzb_writer.specs.Markup.{attribute, has_attribute, or_nothing};
ghost use Rattle.nzb_index.specs.MarkupReading.{attribute_at, quoted_at, tag_at};
ghost use Rattle.nzb_index.specs.Readers.{ReadsValue};
ghost use Rattle.nzb_index.specs.Tags.{HasLater, ReadsAttribute, ReadsTag, attributes_of, checks_of, place_of};
ghost use Rattle.nzb_index.specs.declared.error.NzbError.TheVariants.{Memory, Refused};
ghost use Rattle.nzb_index.specs.declared.tags.TheConstants.{FEW_NAMES};
ghost use Rattle.numbers.specs.Numbers.{decimal_of, within, or_zero};

use crate::pieces::value_end;
use crate::scan::{name_end, starts_at, unexpected, white_end, word_end};
use crate::{NzbError, NzbReason};
use limits::{LAST_MOMENT, MOST_OCTETS};
use lists::{Bytes, Lines};
use numbers::read_dec;
use std::alloc::Global;
use std::collections::BTreeSet;

// So many names of a tag are compared one by one. The later ones are kept in order too, where a tag has that many.
const FEW_NAMES: usize = 16;

/// What start tags and texts are read into, one after another, so that none takes memory of its own.
#[derive(Drop)]
pub(crate) struct Scratch {
    alloc: Global,
    /// The names of a tag's attributes.
    pub(crate) names: Lines,
    /// Their values, in the same order.
    pub(crate) values: Lines,
    /// A value or a text.
    pub(crate) bytes: Bytes,
}

impl Scratch {
    pub(crate) fn new(alloc: Global) -> Self {
        Scratch {
            alloc,
            names: Lines::new(alloc),
            values: Lines::new(alloc),
            bytes: Bytes::new(alloc),
        }
    }

    /// Whether the tag that was read last has an attribute of this name.
    pub(crate) fn has(&self, name: &[u8]) -> bool
        requires { length self.now.names ≡ length self.now.values }
        ensures { result ≡ has_attribute name.now (attributes_of self.now.names self.now.values) }
    {
        place_of(&self.names, name).is_some()
    }

    /// The value of its attribute of this name, or nothing where that is missing.
    pub(crate) fn value(&self, name: &[u8]) -> &[u8]
        requires { length self.now.names ≡ length self.now.values }
        ensures { result.now ≡ or_nothing (attribute name.now (attributes_of self.now.names self.now.values)) }
    {
        value_of(&self.names, &self.values, name)
    }

    /// The number that is that value, or 0 where it is none up to `max`.
    pub(crate) fn number(&self, name: &[u8], max: u64) -> u64
        requires { length self.now.names ≡ length self.now.values }
        ensures value { result ≡ or_zero (within 0 max (decimal_of (or_nothing (attribute name.now (attributes_of self.now.names self.now.values))))) }
        ensures most { result ≤ max }
    {
        match read_dec(self.value(name), max) {
            Some(number) => number,
            None => 0,
        }
    }
}

/// Elements by what their attributes may be.
#[derive(Clone, Copy)]
pub(crate) enum Element {
    Plain,
    File,
    Segment,
}

/// Reads a start tag from behind its name on. Answers whether it is the end tag too, and the place behind it.
pub(crate) fn tag_end(
    text: &[u8],
    at: usize,
    element: Element,
    scratch: &mut Scratch,
) -> Result<(bool, usize), NzbError>
    requires { at ≤ length text.now }
    ensures { ReadsTag text.now at scratch.new.names scratch.new.values result (tag_at (checks_of element) (drop at text.now)) }
{
    scratch.names.clear();
    scratch.values.clear();
    let mut later = BTreeSet::new(scratch.alloc);
    let mut end = at;
    while end < text.len() {
        let here = white_end(text, end);
        if starts_at(text, here, b">") {
            return Ok((false, here + 1));
        }
        if starts_at(text, here, b"/") {
            let behind = word_end(text, here, b"/>")?;
            return Ok((true, behind));
        }
        if here == end {
            return Err(unexpected(text, here));
        }
        end = attribute_end(text, here, element, scratch, &mut later)?;
    }
    Err(unexpected(text, end))
}

// Reads an attribute from its name on. The set has the later names of the tag.
fn attribute_end<'a>(
    text: &'a [u8],
    at: usize,
    element: Element,
    scratch: &mut Scratch,
    later: &mut BTreeSet<&'a [u8]>,
) -> Result<usize, NzbError>
    requires within { at ≤ length text.now }
    requires pairs { length scratch.old.names ≡ length scratch.old.values }
    requires later { HasLater later.old scratch.old.names }
    ensures later { OnOk result (HasLater later.new scratch.new.names) }
    ensures read { ReadsAttribute text.now at scratch.old.names scratch.old.values scratch.new.names scratch.new.values result
        (attribute_at (checks_of element) (attributes_of scratch.old.names scratch.old.values) (drop at text.now)) }
{
    let name = name_end(text, at)?;
    let new = is_new(&scratch.names, later, &text[at..name])?;
    if !new {
        return Err(refused(at, NzbReason::DoubleAttribute));
    }
    let equals = word_end(text, white_end(text, name), b"=")?;
    let end = quoted_end(text, white_end(text, equals), &mut scratch.bytes)?;
    if !allows(element, &text[at..name], scratch.bytes.as_slice()) {
        return Err(refused(at, NzbReason::BadNumber));
    }
    push(&mut scratch.names, &text[at..name])?;
    push(&mut scratch.values, scratch.bytes.as_slice())?;
    Ok(end)
}

// Reads a value in its quotes.
fn quoted_end(text: &[u8], at: usize, out: &mut Bytes) -> Result<usize, NzbError>
    requires { at ≤ length text.now }
    ensures { ReadsValue text.now at out.new result (quoted_at (drop at text.now)) }
{
    if at == text.len() {
        return Err(unexpected(text, at));
    }
    let quote = text[at];
    if quote != b'"' && quote != b'\'' {
        return Err(unexpected(text, at));
    }
    value_end(text, at + 1, quote, out)
}

fn push(lines: &mut Lines, line: &[u8]) -> Result<(), NzbError>
    ensures ok { OnOk result (lines.new ≡ lines.old ++ line.now ∷ []) }
    ensures err { OnErr result (result ≡ Err Memory) }
{
    match lines.push(line) {
        Ok(()) => Ok(()),
        Err(_) => Err(NzbError::Memory),
    }
}

// Whether no name so far is this one, which is then among the later ones where it is one of them.
fn is_new<'a>(
    names: &Lines,
    later: &mut BTreeSet<&'a [u8]>,
    name: &'a [u8],
) -> Result<bool, NzbError>
    requires { HasLater later.old names.now }
    ensures new { IfOk result (λ new. new ≡ not (is_some (place_of name.now names.now))) }
    ensures later { IfOk result (λ new. OnTrue new (HasLater later.new (names.now ++ name.now ∷ []))) }
    ensures err { OnErr result (result ≡ Err Memory) }
{
    if is_among_first(names, name) {
        return Ok(false);
    }
    if names.len() < FEW_NAMES {
        return Ok(true);
    }
    match later.insert(name) {
        Ok(added) => Ok(added),
        Err(_) => Err(NzbError::Memory),
    }
}

// Whether this name is one of the first.
fn is_among_first(names: &Lines, name: &[u8]) -> bool
    ensures found { OnTrue result (is_some (place_of name.now names.now) ≡ true) }
    ensures later { OnFalse result (is_some (place_of name.now names.now) ≡ is_some (place_of name.now (drop FEW_NAMES names.now))) }
{
    for at in 0..names.len().min(FEW_NAMES) {
        if names.line(at) == name {
            return true;
        }
    }
    false
}

// The place of the first of these names that is this one.
fn place_of(names: &Lines, name: &[u8]) -> Option<usize>
    ensures { result ≡ place_of name.now names.now }
{
    for at in 0..names.len() {
        if names.line(at) == name {
            return Some(at);
        }
    }
    None
}

/// The value of the attribute of a name, or nothing where it is missing.
fn value_of<'a>(names: &Lines, values: &'a Lines, name: &[u8]) -> &'a [u8]
    requires { length names.now ≡ length values.now }
    ensures { result.now ≡ or_nothing (attribute name.now (attributes_of names.now values.now)) }
{
    match place_of(names, name) {
        Some(at) => values.line(at),
        None => &[],
    }
}

// Whether an attribute of this name may have this value.
fn allows(element: Element, name: &[u8], value: &[u8]) -> bool
    ensures { result ≡ checks_of element name.now value.now }
{
    match element {
        Element::Plain => true,
        Element::File => name != b"date".as_slice() || read_dec(value, LAST_MOMENT).is_some(),
        Element::Segment => {
            if name == b"number".as_slice() {
                return is_number(value);
            }
            name != b"bytes".as_slice() || read_dec(value, MOST_OCTETS).is_some()
        }
    }
}

fn is_number(value: &[u8]) -> bool
    ensures { result ≡ is_some (within 1 4294967295 (decimal_of value.now)) }
{
    match read_dec(value, u64::from(u32::MAX)) {
        Some(number) => number >= 1,
        None => false,
    }
}

pub(crate) fn refused(place: usize, reason: NzbReason) -> NzbError
    ensures { result ≡ Refused place reason }
{
    NzbError::Refused { place, reason }
}
