// Articles, and what of the lines that are posted makes one.
ghost use Rattle.std.specs.Prelude.{◌≡◌, ◌+◌, fold, IfOk};
ghost use Rattle.held_articles.specs.Octets.{with_octets};

use crate::block_lines::BlockLines;
use crate::field::{has_from_and_subject, id_of, newsgroups_of};
use lists::{Bytes, Lines, Memory};
use nntp_lines::MessageId;
use std::alloc::Global;

/// An article.
#[derive(Drop)]
pub struct Article {
    /// Its message-id, without angle brackets.
    pub id: MessageId,
    /// The newsgroups that it is in, with a comma between two.
    pub newsgroups: Bytes,
    /// The lines of its head.
    pub head: Lines,
    /// The lines of its body.
    pub body: BlockLines,
}

impl Article {
    ghost use Rattle.held_articles.specs.Articles.{article_of, in_group};
    ghost use Rattle.held_articles.specs.Octets.{octets_of};

    /// The article of a head and a body, or `None` where the head lacks one of the four fields that a poster has to give
    /// (RFC 5536, 3.1).
    #[tactic(auto, unfolding(crate::specs::Articles::article_of))]
    pub fn from_lines(
        alloc: Global,
        head: Lines,
        body: BlockLines,
    ) -> Result<Option<Article>, Memory>
        ensures { IfOk result (λ article. article ≡ article_of head body) }
    {
        if !has_from_and_subject(&head) {
            return Ok(None);
        }
        let newsgroups = match newsgroups_of(alloc, &head)? {
            Some(newsgroups) => newsgroups,
            None => return Ok(None),
        };
        let id = match id_of(&head) {
            Some(id) => id,
            None => return Ok(None),
        };
        Ok(Some(Article {
            id,
            newsgroups,
            head,
            body,
        }))
    }

    /// Whether it is in the newsgroup of this name (RFC 5536, 3.1.4).
    #[tactic(auto, unfolding(crate::specs::Articles::in_group))]
    pub fn is_in(&self, name: &[u8]) -> bool
        ensures { result ≡ in_group name.now self.now }
    {
        self.newsgroups
            .as_slice()
            .split(|byte| *byte == b',')
            .any(|own| own == name)
    }

    /// How many octets it has, with CRLF behind each line and before dots are added. More than fit into the number fit into no
    /// memory.
    pub fn octets(&self) -> Result<u64, Memory>
        ensures { IfOk result (λ octets. octets ≡ octets_of self.now) }
    {
        let head = octets_behind(0, &self.head)?;
        let empty = with_line(head, 0)?;
        octets_behind(empty, self.body.as_lines())
    }
}

// So many octets, and those of these lines.
fn octets_behind(before: u64, lines: &Lines) -> Result<u64, Memory>
    ensures { IfOk result (λ octets. octets ≡ fold with_octets before lines.now) }
{
    let mut octets = before;
    for i in 0..lines.len() {
        octets = with_line(octets, lines.line(i).len())?;
    }
    Ok(octets)
}

// So many octets, and those of a line of this length. More than fit into the number fit into no memory.
fn with_line(octets: u64, len: usize) -> Result<u64, Memory>
    ensures { IfOk result (λ more. more ≡ octets + (len + 2)) }
{
    match octets.checked_add(len as u64) {
        Some(octets) => octets.checked_add(2).ok_or(Memory),
        None => Err(Memory),
    }
}
