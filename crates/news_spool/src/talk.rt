// What is said on one link, line by line.
ghost use Rattle.std.specs.Prelude.{◌≡◌, ◌≤◌, [], ◌++◌, length, take, IfOk, OnOk, false, None};
ghost use Rattle.dot_blocks.specs.BlockReading.{is_dot, unstuffed};
ghost use Rattle.dot_blocks.specs.Blocks.{HoldsNoLineEnd};

use crate::body::{append_body, append_stat};
use crate::command::{GROUP_WORD, LOGIN_WORD, answer_to};
use crate::group::{append_group, count_group};
use crate::overview::append_overviews;
use crate::owed::Owed;
use crate::plan::SpoolServer;
use crate::range::NumberRange;
use crate::reply::{Answer, Reply};
use held_articles::{AddError, Article, BlockLines, HeldArticles};
use lists::{Bytes, Lines, Memory};
use nntp_lines::MessageId;
use std::alloc::Global;
use std::mem;

/// What the next line is that a server hears.
#[derive(Drop)]
pub(crate) enum Phase {
    /// A command.
    Commands,
    /// A line of an article's head, of which these came.
    Head(Lines),
    /// A line of its body, behind this head and these lines.
    Body(Lines, BlockLines),
    /// Nothing that is heard: the session has ended.
    Over,
}

/// Where the talk on a link stands.
#[derive(Drop)]
pub(crate) struct Talk {
    /// What comes next.
    pub(crate) phase: Phase,
    /// The name that came last for a login.
    pub(crate) name: Option<Bytes>,
    /// Whether the login is done.
    pub(crate) logged_in: bool,
    /// The newsgroup that was chosen last.
    pub(crate) group: Option<Bytes>,
    /// What of the replies wasn't given yet.
    pub(crate) owed: Owed,
}

impl Talk {
    ghost use Rattle.held_articles.specs.ById.{present_article};
    ghost use Rattle.news_spool.specs.Bodies.{body_reply, stat_reply};
    ghost use Rattle.news_spool.specs.Overview.{over_reply};
    ghost use Rattle.news_spool.specs.Talk.{after_group, after_reply, answered, articles_after, article_reply, ended_talk, heard_body, heard_command, heard_head, heard_line, in_phase, judged, new_talk, owing, saying};

    // A talk that begins with the greeting.
    pub(crate) fn new(alloc: Global) -> Result<Self, Memory>
        ensures { IfOk result (λ talk. talk ≡ new_talk) }
    {
        let mut talk = Talk {
            phase: Phase::Commands,
            name: None,
            logged_in: false,
            group: None,
            owed: Owed::new(alloc),
        };
        match talk.say(Reply::Ready) {
            Ok(()) => Ok(talk),
            Err(Memory) => Err(Memory),
        }
    }

    // A talk of which nothing is left.
    pub(crate) fn ended(alloc: Global) -> Self
        ensures { result ≡ ended_talk }
    {
        Talk {
            phase: Phase::Over,
            name: None,
            logged_in: false,
            group: None,
            owed: Owed::new(alloc),
        }
    }

    // Hears a line without its CRLF, to a server whose articles have this date. Where memory runs out, an article may have been
    // kept.
    pub(crate) fn hear_line(
        &mut self,
        alloc: Global,
        server: &SpoolServer,
        date: &[u8],
        line: &[u8],
        articles: &mut HeldArticles,
    ) -> Result<(), Memory>
        requires { HoldsNoLineEnd line.now }
        ensures ok { OnOk result ((self.new, articles.new) ≡ heard_line server.now date.now line.now (self.old, articles.old)) }
        ensures kept { take (length articles.old) articles.new ≡ articles.old }
    {
        match mem::replace(&mut self.phase, Phase::Over) {
            Phase::Commands => self.hear_command(alloc, server, date, line, articles),
            Phase::Head(head) => self.hear_head(alloc, head, line),
            Phase::Body(head, body) => self.hear_body(alloc, head, body, line, articles),
            Phase::Over => Ok(()),
        }
    }

    fn hear_command(
        &mut self,
        alloc: Global,
        server: &SpoolServer,
        date: &[u8],
        line: &[u8],
        articles: &HeldArticles,
    ) -> Result<(), Memory>
        ensures { OnOk result (self.new ≡ heard_command server.now date.now line.now articles.now self.old) }
    {
        self.phase = Phase::Commands;
        let absent = server.absent.as_slice();
        match answer_to(&server.login, self.logged_in, &self.name, line) {
            Answer::Line(reply) => self.answer(alloc, reply, line),
            Answer::Group => self.choose(alloc, line.split_at(GROUP_WORD).1, articles.as_slice()),
            Answer::Overview(range) => self.say_overviews(range, date, articles.as_slice()),
            Answer::Body(id) => self.say_body(&id, absent, articles),
            Answer::Stat(id) => self.say_stat(&id, absent, articles),
        }
    }

    // Gives a reply of one line to a command, and does what it says.
    fn answer(&mut self, alloc: Global, reply: Reply, line: &[u8]) -> Result<(), Memory>
        requires phase { self.old.phase ≡ Phase.Commands }
        requires word { reply ≡ Reply.PassNext → 14 ≤ length line.now }
        ensures { OnOk result (self.new ≡ after_reply reply line.now self.old) }
    {
        self.say(reply)?;
        match reply {
            Reply::Send => {
                self.phase = Phase::Head(Lines::new(alloc));
                Ok(())
            }
            Reply::Bye => {
                self.phase = Phase::Over;
                Ok(())
            }
            Reply::PassNext => {
                let mut name = Bytes::new(alloc);
                name.extend(line.split_at(LOGIN_WORD).1)?;
                self.name = Some(name);
                Ok(())
            }
            Reply::LoggedIn => {
                self.logged_in = true;
                Ok(())
            }
            _ => Ok(()),
        }
    }

    // Chooses the newsgroup of this name, if an article is in it.
    fn choose(&mut self, alloc: Global, name: &[u8], articles: &[Article]) -> Result<(), Memory>
        ensures { OnOk result (self.new ≡ after_group name.now articles.now self.old) }
    {
        match count_group(name, articles) {
            None => self.say(Reply::NotInGroup),
            Some(told) => {
                let mut group = Bytes::new(alloc);
                group.extend(name)?;
                append_group(name, told, &mut self.owed)?;
                self.owed.extend(b"\r\n")?;
                self.group = Some(group);
                Ok(())
            }
        }
    }

    // Owes the overview of the articles of the chosen newsgroup that are in a range.
    fn say_overviews(
        &mut self,
        range: NumberRange,
        date: &[u8],
        articles: &[Article],
    ) -> Result<(), Memory>
        ensures { OnOk result (self.new ≡ saying (over_reply self.old.group range date.now articles.now) self.old) }
    {
        match &self.group {
            None => self.owed.say(Reply::NoneChosen),
            Some(name) => append_overviews(name.as_slice(), range, date, articles, &mut self.owed),
        }
    }

    // Owes the body of the article with a message-id, from a server that lacks those with these numbers.
    fn say_body(
        &mut self,
        id: &MessageId,
        absent: &[u64],
        articles: &HeldArticles,
    ) -> Result<(), Memory>
        ensures { OnOk result (self.new ≡ saying (body_reply (present_article id.now absent.now articles.now)) self.old) }
    {
        append_body(articles.present(id, absent), &mut self.owed)
    }

    // Owes whether there is such an article.
    fn say_stat(
        &mut self,
        id: &MessageId,
        absent: &[u64],
        articles: &HeldArticles,
    ) -> Result<(), Memory>
        ensures { OnOk result (self.new ≡ saying (stat_reply (present_article id.now absent.now articles.now)) self.old) }
    {
        append_stat(articles.present(id, absent), &mut self.owed)
    }

    fn hear_head(&mut self, alloc: Global, mut head: Lines, line: &[u8]) -> Result<(), Memory>
        ensures { OnOk result (self.new ≡ heard_head head line.now self.old) }
    {
        if is_dot(line) {
            self.phase = Phase::Commands;
            return self.say(Reply::Refused);
        }
        if line.is_empty() {
            self.phase = Phase::Body(head, BlockLines::new(alloc));
            return Ok(());
        }
        head.push(unstuffed(line))?;
        self.phase = Phase::Head(head);
        Ok(())
    }

    fn hear_body(
        &mut self,
        alloc: Global,
        head: Lines,
        mut body: BlockLines,
        line: &[u8],
        articles: &mut HeldArticles,
    ) -> Result<(), Memory>
        requires { HoldsNoLineEnd line.now }
        ensures ok { OnOk result ((self.new, articles.new) ≡ heard_body head body line.now (self.old, articles.old)) }
        ensures kept { take (length articles.old) articles.new ≡ articles.old }
    {
        if is_dot(line) {
            let article = Article::from_lines(alloc, head, body)?;
            return self.judge(article, articles);
        }
        body.push(unstuffed(line))?;
        self.phase = Phase::Body(head, body);
        Ok(())
    }

    // Keeps what was posted where it is an article that isn't known, and says so.
    fn judge(&mut self, article: Option<Article>, articles: &mut HeldArticles) -> Result<(), Memory>
        ensures ok { OnOk result ((self.new, articles.new) ≡ judged article (self.old, articles.old)) }
        ensures kept { take (length articles.old) articles.new ≡ articles.old }
    {
        self.phase = Phase::Commands;
        match article {
            None => self.say(Reply::Refused),
            Some(article) => match articles.add(article) {
                Ok(()) => self.say(Reply::Posted),
                Err(AddError::Known) => self.say(Reply::Refused),
                Err(AddError::Memory) => Err(Memory),
            },
        }
    }

    // Owes one more reply.
    fn say(&mut self, reply: Reply) -> Result<(), Memory>
        ensures { OnOk result (self.new ≡ owing reply self.old) }
    {
        self.owed.say(reply)
    }
}

// Whether a line is the dot that ends a block.
fn is_dot(line: &[u8]) -> bool
    ensures { result ≡ is_dot line.now }
{
    match line {
        [byte] => *byte == b'.',
        _ => false,
    }
}

// A line without the dot at its front, if it has one.
#[tactic(auto, using(crate::proofs::LineEnds::none_unstuffed))]
fn unstuffed(line: &[u8]) -> &[u8]
    ensures line { result.now ≡ unstuffed line.now }
    ensures rule { HoldsNoLineEnd line.now → HoldsNoLineEnd result.now }
{
    match line.strip_prefix(b".") {
        Some(rest) => rest,
        None => line,
    }
}
