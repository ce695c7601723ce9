// The reasons of ends, read from the words of a line.
ghost use Rattle.std.specs.Prelude.{◌≡◌};
ghost use Rattle.run_ends.specs.Reading.{key_fault_told, key_told, nzb_reason_told, reason_told, why_told};

use crate::words::{cut, read_code, read_crc, read_long, read_short};
use nntp_lines::Why;
use nzb_index::NzbReason;
use yenc_body::Reason;
use yenc_lines::{Key, KeyFault};

// A reason with its values.
#[tactic(auto, unfolding(crate::specs::Reading::reason_told))]
pub(crate) fn read_reason(text: &[u8]) -> Option<Reason>
    ensures { result ≡ reason_told text.now }
{
    let (word, rest) = cut(text);
    if word == b"NoBegin".as_slice() {
        Some(Reason::NoBegin)
    } else if word == b"BadBegin".as_slice() {
        Some(Reason::BadBegin(read_key_fault(rest)?))
    } else if word == b"PartRange".as_slice() {
        Some(Reason::PartRange)
    } else if word == b"NoPart".as_slice() {
        Some(Reason::NoPart)
    } else if word == b"BadPart".as_slice() {
        Some(Reason::BadPart(read_key_fault(rest)?))
    } else if word == b"Stray".as_slice() {
        Some(Reason::Stray)
    } else if word == b"LoneEscape".as_slice() {
        Some(Reason::LoneEscape)
    } else if word == b"TooMany".as_slice() {
        Some(Reason::TooMany)
    } else if word == b"Keyword".as_slice() {
        Some(Reason::Keyword)
    } else if word == b"KeywordTooLong".as_slice() {
        Some(Reason::KeywordTooLong)
    } else if word == b"NoEnd".as_slice() {
        Some(Reason::NoEnd)
    } else if word == b"BadEnd".as_slice() {
        Some(Reason::BadEnd(read_key_fault(rest)?))
    } else if word == b"EndPart".as_slice() {
        Some(Reason::EndPart(read_short(rest)?, read_short(cut(rest).1)?))
    } else if word == b"EndSize".as_slice() {
        Some(Reason::EndSize(read_long(rest)?, read_long(cut(rest).1)?))
    } else if word == b"TooFew".as_slice() {
        Some(Reason::TooFew(read_long(rest)?, read_long(cut(rest).1)?))
    } else if word == b"CrcDiffers".as_slice() {
        Some(Reason::CrcDiffers(read_crc(rest)?, read_crc(cut(rest).1)?))
    } else {
        None
    }
}

// What is wrong with a keyword line.
#[tactic(auto, unfolding(crate::specs::Reading::key_fault_told))]
fn read_key_fault(text: &[u8]) -> Option<KeyFault>
    ensures { result ≡ key_fault_told text.now }
{
    let (word, rest) = cut(text);
    if word == b"NotIt".as_slice() {
        Some(KeyFault::NotIt)
    } else if word == b"NoItem".as_slice() {
        Some(KeyFault::NoItem(read_key(rest)?))
    } else if word == b"BadNumber".as_slice() {
        Some(KeyFault::BadNumber(read_key(rest)?))
    } else if word == b"Repeated".as_slice() {
        Some(KeyFault::Repeated(read_key(rest)?))
    } else if word == b"BadName".as_slice() {
        Some(KeyFault::BadName)
    } else {
        None
    }
}

// A key.
#[tactic(auto, unfolding(crate::specs::Reading::key_told))]
fn read_key(text: &[u8]) -> Option<Key>
    ensures { result ≡ key_told text.now }
{
    let (word, _) = cut(text);
    if word == b"part".as_slice() {
        Some(Key::Part)
    } else if word == b"total".as_slice() {
        Some(Key::Total)
    } else if word == b"line".as_slice() {
        Some(Key::Line)
    } else if word == b"size".as_slice() {
        Some(Key::Size)
    } else if word == b"name".as_slice() {
        Some(Key::Name)
    } else if word == b"begin".as_slice() {
        Some(Key::Begin)
    } else if word == b"end".as_slice() {
        Some(Key::End)
    } else if word == b"pcrc32".as_slice() {
        Some(Key::Pcrc32)
    } else if word == b"crc32".as_slice() {
        Some(Key::Crc32)
    } else {
        None
    }
}

// Why a text is no NZB.
#[tactic(auto, unfolding(crate::specs::Reading::nzb_reason_told))]
pub(crate) fn read_nzb_reason(text: &[u8]) -> Option<NzbReason>
    ensures { result ≡ nzb_reason_told text.now }
{
    let (word, _) = cut(text);
    if word == b"Ended".as_slice() {
        Some(NzbReason::Ended)
    } else if word == b"Unexpected".as_slice() {
        Some(NzbReason::Unexpected)
    } else if word == b"BadReference".as_slice() {
        Some(NzbReason::BadReference)
    } else if word == b"WrongTag".as_slice() {
        Some(NzbReason::WrongTag)
    } else if word == b"DoubleAttribute".as_slice() {
        Some(NzbReason::DoubleAttribute)
    } else if word == b"NoNumber".as_slice() {
        Some(NzbReason::NoNumber)
    } else if word == b"BadNumber".as_slice() {
        Some(NzbReason::BadNumber)
    } else if word == b"BadId".as_slice() {
        Some(NzbReason::BadId)
    } else if word == b"Subset".as_slice() {
        Some(NzbReason::Subset)
    } else {
        None
    }
}

// Why a link is over.
#[tactic(auto, unfolding(crate::specs::Reading::why_told))]
pub(crate) fn read_why(text: &[u8]) -> Option<Why>
    ensures { result ≡ why_told text.now }
{
    let (word, rest) = cut(text);
    if word == b"ended".as_slice() {
        Some(Why::Ended)
    } else if word == b"quiet".as_slice() {
        Some(Why::Quiet)
    } else if word == b"greeting".as_slice() {
        Some(Why::Greeting(read_code(rest)?))
    } else if word == b"login".as_slice() {
        Some(Why::Login(read_code(rest)?))
    } else if word == b"odd".as_slice() {
        Some(Why::Odd(read_code(rest)?))
    } else if word == b"noreply".as_slice() {
        Some(Why::NoReply)
    } else if word == b"toolong".as_slice() {
        Some(Why::TooLong)
    } else if word == b"unasked".as_slice() {
        Some(Why::Unasked)
    } else {
        None
    }
}
