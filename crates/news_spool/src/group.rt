// What the articles say of a newsgroup.
ghost use Rattle.std.specs.Prelude.{◌≡◌, ◌<◌, ◌+◌, ◌++◌, IfSome, OnOk};
ghost use Rattle.news_spool.specs.Groups.{CountsBelow, group_count, group_line, with_number};

use crate::owed::Owed;
use held_articles::Article;
use lists::Memory;
use nntp_lines::GroupReply;

// How many articles are in the newsgroup of this name, with the least number and the greatest, if any is.
pub(crate) fn count_group(name: &[u8], articles: &[Article]) -> Option<GroupReply>
    ensures { result ≡ group_count name.now articles.now }
{
    let mut found = None;
    for (i, article) in articles.iter().enumerate() {
        if article.is_in(name) {
            found = Some(with_number(found, i as u64 + 1));
        }
    }
    found
}

// One number more, which is above those before it.
fn with_number(found: Option<GroupReply>, number: u64) -> GroupReply
    requires some { 0 < number }
    requires below { IfSome found (CountsBelow number) }
    ensures told { result ≡ with_number found number }
    ensures below { CountsBelow (number + 1) result }
{
    match found {
        None => GroupReply {
            count: 1,
            low: number,
            high: number,
        },
        Some(told) => GroupReply {
            count: told.count + 1,
            low: told.low,
            high: number,
        },
    }
}

// Appends the line by which a newsgroup is chosen, without its CRLF.
#[tactic(auto, unfolding(crate::specs::Groups::group_line))]
pub(crate) fn append_group(name: &[u8], told: GroupReply, out: &mut Owed) -> Result<(), Memory>
    ensures { OnOk result (out.new ≡ out.old ++ group_line name.now told) }
{
    out.extend(b"211 ")?;
    out.extend_number(told.count)?;
    out.extend(b" ")?;
    out.extend_number(told.low)?;
    out.extend(b" ")?;
    out.extend_number(told.high)?;
    out.extend(b" ")?;
    out.extend(name)
}
