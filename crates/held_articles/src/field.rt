// The fields of a head that is posted.
ghost use Rattle.std.specs.Prelude.{◌≡◌, length, IfOk, Option};
ghost use Rattle.std.specs.Option.{is_some, option_copied};
ghost use Rattle.std.specs.List.{list_all};
ghost use Rattle.nntp_lines.specs.GroupName.{is_group_byte};
ghost use Rattle.article_head.specs.Field.{is_word, names_of};
ghost use Rattle.held_articles.specs.Fields.{are_newsgroups, field_of, has_from_and_subject, id_in, id_of, is_bracketed, newsgroups_of};

use lists::{Bytes, Lines, Memory};
use nntp_lines::{GroupName, MessageId};
use std::alloc::Global;

/// What the first line says that begins with these bytes, a field's name, a colon and a space.
pub fn field_of<'a>(name: &[u8], head: &'a Lines) -> Option<&'a [u8]>
    ensures { option_copied result ≡ field_of name.now head.now }
{
    for i in 0..head.len() {
        if let Some(text) = head.line(i).strip_prefix(name) {
            return Some(text);
        }
    }
    None
}

// Whether a head says who posts and what it is (RFC 5536, 3.1.2 and 3.1.6).
pub(crate) fn has_from_and_subject(head: &Lines) -> bool
    ensures { result ≡ has_from_and_subject head.now }
{
    field_of(b"From: ", head).is_some() && field_of(b"Subject: ", head).is_some()
}

// The newsgroups that a head names, where they keep to their rule.
pub(crate) fn newsgroups_of(alloc: Global, head: &Lines) -> Result<Option<Bytes>, Memory>
    ensures { IfOk result (λ newsgroups. newsgroups ≡ newsgroups_of head.now) }
{
    match field_of(b"Newsgroups: ", head) {
        Some(text) => {
            if !are_newsgroups(text) {
                return Ok(None);
            }
            let mut newsgroups = Bytes::new(alloc);
            newsgroups.extend(text)?;
            Ok(Some(newsgroups))
        }
        None => Ok(None),
    }
}

// The message-id that a head gives, where it is one in angle brackets.
pub(crate) fn id_of(head: &Lines) -> Option<MessageId>
    ensures { result ≡ id_of head.now }
{
    match field_of(b"Message-ID: ", head) {
        Some(text) => id_in(text),
        None => None,
    }
}

fn are_newsgroups(text: &[u8]) -> bool
    ensures { result ≡ are_newsgroups text.now }
{
    text.split(|byte| *byte == b',').all(|name| is_name(name))
}

fn is_name(name: &[u8]) -> bool
    ensures { result ≡ is_word is_group_byte 200 name.now }
{
    GroupName::new(name).is_some()
}

/// The message-id that a text gives in angle brackets, where it is nothing else (RFC 3977, 3.6).
pub fn id_in(text: &[u8]) -> Option<MessageId>
    ensures { result ≡ id_in text.now }
{
    if !is_bracketed(text) {
        return None;
    }
    MessageId::new(&text[1..text.len() - 1])
}

fn is_bracketed(text: &[u8]) -> bool
    ensures { result ≡ is_bracketed text.now }
{
    text.len() > 1 && text[0] == b'<' && text[text.len() - 1] == b'>'
}
