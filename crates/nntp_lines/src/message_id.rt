// The message-id of an article.
ghost use Rattle.std.specs.Prelude.{◌≡◌, ◌↔◌, IsTrue, IsSome, IfSome};
ghost use Rattle.std.specs.List.{list_all};
ghost use Rattle.nntp_lines.specs.MessageId.{IsMessageId, is_id_byte};

use lists::Short;
use std::marker::Model;

// The greatest length in bytes.
const MOST: usize = 248;

/// The message-id of an article without the angle brackets round it (RFC 3977, 3.6 and 9.8): 1 to 248 printable ASCII
/// characters, none of them a space or `>`. Contracts see the list of bytes.
#[derive(Clone, Debug, Drop)]
pub struct MessageId {
    text: Short<MOST>,
}

impl Model for MessageId {
    ghost use Rattle.std.specs.Prelude.{ℕ, List};
    ghost use Rattle.nntp_lines.specs.MessageId.{IsMessageId};

    ghost Value = { List ℕ };

    ghost view = { λ id. id.text };

    ghost invariant = { λ id. IsMessageId id.text };
}

impl MessageId {
    /// These bytes, which stand between the angle brackets, as a message-id, or `None` where they break the rule.
    pub fn new(inner: &[u8]) -> Option<MessageId>
        ensures rule { IsSome result ↔ IsMessageId inner.now }
        ensures same { IfSome result (λ id. id ≡ inner.now) }
    {
        if !is_message_id(inner) {
            return None;
        }
        let text = Short::new(inner)?;
        Some(MessageId { text })
    }

    /// All bytes between the angle brackets, in order.
    pub fn as_slice(&self) -> &[u8]
        ensures bytes { result.now ≡ self.now }
        ensures rule { IsMessageId self.now }
    {
        self.text.as_slice()
    }
}

fn is_message_id(inner: &[u8]) -> bool
    ensures { IsTrue result ↔ IsMessageId inner.now }
{
    !inner.is_empty() && inner.len() <= MOST && are_id_bytes(inner)
}

fn are_id_bytes(bytes: &[u8]) -> bool
    ensures { result ≡ list_all is_id_byte bytes.now }
{
    bytes.iter().all(|byte| is_id_byte(*byte))
}

fn is_id_byte(byte: u8) -> bool
    ensures { result ≡ is_id_byte byte }
{
    byte.is_ascii_graphic() && byte != b'>'
}
