// The message-id of a part's article.
ghost use Rattle.std.specs.Prelude.{◌≡◌, ◌≤◌, ◌↔◌, length, take, IsTrue};
ghost use Rattle.std.specs.List.{list_all};
ghost use Rattle.article_head.specs.Field.{is_word};
ghost use Rattle.article_head.specs.PartId.{IsDomain, IsToken, is_label_byte, is_token_byte, labels_of, part_id_text};
ghost use Rattle.limits.specs.declared.TheConstants.{MOST_ID_BYTES, MOST_SEGMENTS};

use crate::field::ROOM;
use limits::MOST_ID_BYTES;
use nntp_lines::MessageId;
use numbers::{put, put_number};

/// Whether the message-ids of a file's parts may begin with a text: 1 to MOST_ID_BYTES letters, digits, `-` and `_`.
pub fn is_token(text: &[u8]) -> bool
    ensures { IsTrue result ↔ IsToken text.now }
{
    !text.is_empty() && text.len() <= MOST_ID_BYTES && are_token_bytes(text)
}

/// Whether a text is the domain of a message-id: 1 to MOST_ID_BYTES bytes, pieces of letters, digits and `-` with one dot between
/// two of them.
#[tactic(auto, using(crate::proofs::Pieces::domain_from_labels, crate::proofs::Pieces::labels_from_domain))]
pub fn is_domain(text: &[u8]) -> bool
    ensures { IsTrue result ↔ IsDomain text.now }
{
    text.len() <= MOST_ID_BYTES && are_labels(text)
}

fn are_token_bytes(text: &[u8]) -> bool
    ensures { result ≡ list_all is_token_byte text.now }
{
    text.iter().all(|byte| byte.is_ascii_alphanumeric() || *byte == b'-' || *byte == b'_')
}

fn are_labels(text: &[u8]) -> bool
    ensures { result ≡ list_all (is_word is_label_byte MOST_ID_BYTES) (labels_of text.now) }
{
    text.split(|byte| *byte == b'.')
        .all(|label| is_label(label))
}

fn is_label(label: &[u8]) -> bool
    ensures { result ≡ is_word is_label_byte MOST_ID_BYTES label.now }
{
    !label.is_empty() && label.len() <= MOST_ID_BYTES && are_label_bytes(label)
}

fn are_label_bytes(label: &[u8]) -> bool
    ensures { result ≡ list_all is_label_byte label.now }
{
    label
        .iter()
        .all(|byte| byte.is_ascii_alphanumeric() || *byte == b'-')
}

/// The message-id of a part's article, as `TOKEN.PARTofTOTAL@DOMAIN` (RFC 5536, 3.1.3). It takes no memory.
///
/// The token is 1 to MOST_ID_BYTES letters, digits, `-` and `_`. The domain is 1 to MOST_ID_BYTES bytes, pieces of letters, digits and `-` with
/// one dot between two of them. A file has at most `MOST_SEGMENTS` parts.
#[tactic(auto, using(crate::proofs::PartIdLaws::part_id_is_message_id))]
pub fn part_id(token: &[u8], domain: &[u8], part: u32, total: u32) -> MessageId
    requires token { IsToken token.now }
    requires domain { IsDomain domain.now }
    requires part { part ≤ MOST_SEGMENTS }
    requires total { total ≤ MOST_SEGMENTS }
    ensures { result ≡ part_id_text token.now domain.now part total }
{
    let mut text = [0; ROOM];
    let len = put_part_id(&mut text, token, domain, part, total);
    match MessageId::new(&text[..len]) {
        Some(id) => id,
        None => unreachable!(),
    }
}

// Puts the text of a message-id at the front.
#[tactic(auto, unfolding(crate::specs::PartId::part_id_text))]
fn put_part_id(text: &mut [u8; ROOM], token: &[u8], domain: &[u8], part: u32, total: u32) -> usize
    requires token { length token.now ≤ MOST_ID_BYTES }
    requires domain { length domain.now ≤ MOST_ID_BYTES }
    ensures text { take result text.new ≡ part_id_text token.now domain.now part total }
    ensures end { result ≤ 998 }
{
    let at = put(text, 0, token);
    let at = put(text, at, b".");
    let at = put_number(text, at, u64::from(part));
    let at = put(text, at, b"of");
    let at = put_number(text, at, u64::from(total));
    let at = put(text, at, b"@");
    put(text, at, domain)
}
