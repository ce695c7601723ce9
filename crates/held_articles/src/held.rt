// Articles by their message-ids.
ghost use Rattle.std.specs.Prelude.{◌≡◌, ◌↔◌, [], ◌∷◌, ◌++◌, length, take, false, IsTrue, Err, OnOk, OnErr};
ghost use Rattle.std.specs.Option.{option_copied};
ghost use Rattle.held_articles.specs.ById.{is_absent, present_at};

use crate::article::Article;
use indexmap::IndexSet;
use lists::{List, Memory};
use nntp_lines::MessageId;
use std::alloc::Global;
use std::marker::Model;

/// Why an article isn't added.
#[derive(Clone, Copy, Debug, PartialEq, Eq)]
pub enum AddError {
    /// No memory was left.
    Memory,
    /// An article has the message-id.
    Known,
}

/// Articles in the order in which they came, of which no two have the same message-id. Contracts see the list of them.
#[derive(Drop)]
pub struct HeldArticles {
    articles: List<Article>,
    // The message-ids of the articles, each at its article's place.
    ids: IndexSet<Vec<u8>>,
}

impl Model for HeldArticles {
    ghost use Rattle.std.specs.Prelude.{List, ℕ, ◌≡◌};
    ghost use Rattle.held_articles.specs.declared.article.Article.{Article};
    ghost use Rattle.held_articles.specs.ById.{AreKept};

    ghost Value = { List Article };

    ghost view = { λ held. held.articles };

    ghost invariant = { λ held. AreKept held.articles held.ids.keys };
}

impl HeldArticles {
    ghost use Rattle.held_articles.specs.Articles.{is_known};
    ghost use Rattle.held_articles.specs.ById.{AreOnce, IsFoundWhere, place_of, present_article};
    ghost use Rattle.held_articles.specs.declared.held.AddError.TheVariants as errors;

    /// No article. It takes no memory yet.
    pub fn new(alloc: Global) -> Self
        ensures { result ≡ [] }
    {
        HeldArticles {
            articles: List::new(alloc),
            ids: IndexSet::new(alloc),
        }
    }

    /// How many articles there are.
    pub fn len(&self) -> usize
        ensures { result ≡ length self.now }
    {
        self.articles.len()
    }

    /// All articles, in the order in which they came.
    pub fn as_slice(&self) -> &[Article]
        ensures articles { result.now ≡ self.now }
        ensures once { AreOnce self.now }
    {
        self.articles.as_slice()
    }

    /// Keeps the first `len` articles, or all where there are fewer.
    pub fn truncate(&mut self, len: usize)
        ensures { self.new ≡ take len self.old }
    {
        self.articles.truncate(len);
        self.ids.truncate(len);
    }

    /// Whether an article has a message-id.
    pub fn is_known(&self, id: &MessageId) -> bool
        ensures { result ≡ is_known id.now self.now }
    {
        self.ids.contains(id.as_slice())
    }

    /// Adds an article behind the others, or changes nothing and drops it. `Known` comes exactly where one has its message-id.
    pub fn add(&mut self, article: Article) -> Result<(), AddError>
        ensures ok { OnOk result (self.new ≡ self.old ++ article ∷ []) }
        ensures known { (result ≡ Err errors.Known) ↔ IsTrue (is_known article.id self.old) }
        ensures new { OnOk result (is_known article.id self.old ≡ false) }
        ensures err { OnErr result (self.new ≡ self.old) }
    {
        if self.is_known(&article.id) {
            return Err(AddError::Known);
        }
        match self.push(article) {
            Ok(()) => Ok(()),
            Err(Memory) => Err(AddError::Memory),
        }
    }

    // Appends an article with a message-id that none has, or changes nothing.
    fn push(&mut self, article: Article) -> Result<(), Memory>
        requires { is_known article.id self.old ≡ false }
        ensures ok { OnOk result (self.new ≡ self.old ++ article ∷ []) }
        ensures err { OnErr result (self.new ≡ self.old) }
    {
        let before = self.articles.len();
        let id = article.id.as_slice().to_vec(self.articles.alloc())?;
        self.articles.push(article)?;
        match self.ids.insert(id) {
            Ok(_) => Ok(()),
            Err(_) => {
                self.articles.truncate(before);
                Err(Memory)
            }
        }
    }

    /// The article with a message-id, on a server that lacks those with these numbers, which are counted from 1.
    pub fn present(&self, id: &MessageId, absent: &[u64]) -> Option<&Article>
        ensures article { option_copied result ≡ present_article id.now absent.now self.now }
        ensures exact { IsFoundWhere id.now absent.now self.now (option_copied result) }
    {
        match self.place_of(id) {
            Some(place) => present_at(self.articles.as_slice(), place, absent),
            None => None,
        }
    }

    // The place of the article with a message-id, counted from 0.
    fn place_of(&self, id: &MessageId) -> Option<usize>
        ensures { result ≡ place_of id.now self.now }
    {
        self.ids.get_index_of(id.as_slice())
    }
}

// The article at a place, unless its number is one of these.
fn present_at<'a>(articles: &'a [Article], place: usize, absent: &[u64]) -> Option<&'a Article>
    ensures { option_copied result ≡ present_at absent.now articles.now place }
{
    if place >= articles.len() {
        return None;
    }
    if is_absent(place as u64 + 1, absent) {
        return None;
    }
    Some(&articles[place])
}

// Whether a number is one of these.
fn is_absent(number: u64, absent: &[u64]) -> bool
    ensures { result ≡ is_absent number absent.now }
{
    absent.iter().any(|lacked| *lacked == number)
}
