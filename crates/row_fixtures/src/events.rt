// What happened on links.
use io_traits::LinkEvent;
use lists::{Bytes, Memory};
use std::alloc::Global;

/// Whether these are all events. Each is the first letter of its kind and its bytes: opened, sent, heard, quiet and ended.
pub fn are_events(events: &[LinkEvent], wanted: &[(u8, &[u8])]) -> bool {
    if events.len() != wanted.len() {
        return false;
    }
    for i in 0..events.len() {
        if told(&events[i]) != wanted[i] {
            return false;
        }
    }
    true
}

/// Whether these are the kinds of all events, by their first letters.
pub fn are_kinds(events: &[LinkEvent], kinds: &[u8]) -> bool {
    if events.len() != kinds.len() {
        return false;
    }
    for i in 0..events.len() {
        if told(&events[i]).0 != kinds[i] {
            return false;
        }
    }
    true
}

/// All bytes that went out.
pub fn bytes_sent(alloc: Global, events: &[LinkEvent]) -> Result<Bytes, Memory> {
    let mut sent = Bytes::new(alloc);
    for event in events {
        match event {
            LinkEvent::Sent { bytes, .. } => sent.extend(bytes.as_slice())?,
            _ => {}
        }
    }
    Ok(sent)
}

fn told(event: &LinkEvent) -> (u8, &[u8]) {
    match event {
        LinkEvent::Opened { address, .. } => (b'O', address.as_slice()),
        LinkEvent::Sent { bytes, .. } => (b'S', bytes.as_slice()),
        LinkEvent::Heard { bytes, .. } => (b'H', bytes.as_slice()),
        LinkEvent::Quiet { .. } => (b'Q', b""),
        LinkEvent::Ended { .. } => (b'E', b""),
    }
}
