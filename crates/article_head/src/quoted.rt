// The name of a file in the subject of its articles.
ghost use Rattle.std.specs.Prelude.{◌≡◌};
ghost use Rattle.std.specs.Option.{option_copied};
ghost use Rattle.article_head.specs.QuotedName.{FindsQuotedName, before_last, behind_first, quoted_name};

use memchr::{memchr, memrchr};

/// The name of a file in the subject of one of its articles: the bytes between the first and the last double quote (yEnc
/// draft 1.3, "Subject Line Conventions"). `None` where there are less than two.
#[tactic(auto, using(crate::proofs::QuotedNameLaws::finds_quoted_name))]
pub fn quoted_name(subject: &[u8]) -> Option<&[u8]>
    ensures text { option_copied result ≡ quoted_name subject.now }
    ensures rule { FindsQuotedName subject.now (option_copied result) }
{
    name_between(subject)
}

fn name_between(subject: &[u8]) -> Option<&[u8]>
    ensures { option_copied result ≡ quoted_name subject.now }
{
    match behind_first(subject, b'"') {
        Some(rest) => before_last(rest, b'"'),
        None => None,
    }
}

// What stands behind the first such byte, if there is one.
fn behind_first(text: &[u8], byte: u8) -> Option<&[u8]>
    ensures { option_copied result ≡ behind_first byte text.now }
{
    match memchr(byte, text) {
        Some(at) => Some(&text[at + 1..]),
        None => None,
    }
}

// What stands in front of the last such byte, if there is one.
fn before_last(text: &[u8], byte: u8) -> Option<&[u8]>
    ensures { option_copied result ≡ before_last byte text.now }
{
    match memrchr(byte, text) {
        Some(at) => Some(&text[..at]),
        None => None,
    }
}
