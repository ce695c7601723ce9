// The name of a newsgroup.
ghost use Rattle.std.specs.Prelude.{◌≡◌, ◌↔◌, IsTrue, IsSome, IfSome};
ghost use Rattle.std.specs.List.{list_all};
ghost use Rattle.nntp_lines.specs.GroupName.{IsGroupName, is_group_byte};

use lists::Short;
use std::marker::Model;

// The greatest length in bytes.
const MOST: usize = 200;

/// The name of a newsgroup (RFC 5536, 3.1.4): 1 to 200 letters, digits, `+`, `-`, `_` and dots. Contracts see the list
/// of bytes.
#[derive(Clone, Debug, Drop)]
pub struct GroupName {
    text: Short<MOST>,
}

impl Model for GroupName {
    ghost use Rattle.std.specs.Prelude.{ℕ, List};
    ghost use Rattle.nntp_lines.specs.GroupName.{IsGroupName};

    ghost Value = { List ℕ };

    ghost view = { λ name. name.text };

    ghost invariant = { λ name. IsGroupName name.text };
}

impl GroupName {
    /// These bytes as the name of a newsgroup, or `None` where they break the rule.
    pub fn new(name: &[u8]) -> Option<GroupName>
        ensures rule { IsSome result ↔ IsGroupName name.now }
        ensures same { IfSome result (λ group. group ≡ name.now) }
    {
        if !is_group_name(name) {
            return None;
        }
        let text = Short::new(name)?;
        Some(GroupName { text })
    }

    /// All bytes, in order.
    pub fn as_slice(&self) -> &[u8]
        ensures bytes { result.now ≡ self.now }
        ensures rule { IsGroupName self.now }
    {
        self.text.as_slice()
    }
}

fn is_group_name(name: &[u8]) -> bool
    ensures { IsTrue result ↔ IsGroupName name.now }
{
    !name.is_empty() && name.len() <= MOST && are_group_bytes(name)
}

fn are_group_bytes(bytes: &[u8]) -> bool
    ensures { result ≡ list_all is_group_byte bytes.now }
{
    bytes.iter().all(|byte| is_group_byte(*byte))
}

fn is_group_byte(byte: u8) -> bool
    ensures { result ≡ is_group_byte byte }
{
    byte.is_ascii_alphanumeric() || matches!(byte, b'+' | b'-' | b'_' | b'.')
}
