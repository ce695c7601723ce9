// News servers in memory.
ghost use Rattle.std.specs.Prelude.{◌≡◌, ◌≢◌, ◌≤◌, ◌<◌, ℕ, [], ◌∷◌, ◌++◌, ◌⊎◌, ◌↔◌, length, take, slice_get, slice_set, Some, None, true, false, All, IfOk, IsErr, IsTrue, OnErr, OnOk, Err};
ghost use Rattle.dot_blocks.specs.Blocks.{HoldsNoLineEnd};
ghost use Rattle.io_traits.specs.Causes.{HasCause, BlamesNamed, Rose, blame_after, next_count};
ghost use Rattle.io_memory.specs.LinkLog.{log_events, log_live};
ghost use Rattle.io_traits.specs.Links.{tell, opened_events, sent_events, heard_events, live_after_open, live_after_send, live_after_receive, GotFits, GotHasCause, blame_after_receive};
ghost use Rattle.io_memory.specs.Script.{OnFailed, UnlessFailed};
ghost use Rattle.news_spool.specs.Links.{GivesOwed, OpensLink, after_end, after_receive, after_sent, are_served, due_at, ends_after, entry_of, got_of, quiet_after, server_at, server_of, state_at};
ghost use Rattle.news_spool.specs.LinkState.{CanGive, DueFits, given};
ghost use Rattle.news_spool.specs.Pieces.{next_turn};

use crate::SpoolError;
use crate::count::{opening, raised};
use crate::link_state::{Due, LinkState};
use crate::pieces::{next_turn, piece_at};
use crate::plan::{SpoolLink, SpoolPlan, SpoolServer};
use held_articles::{Article, BlockLines, HeldArticles};
use io_memory::LinkLog;
use io_traits::{Blame, Failed, Got, LinkEvent, Links};
use lists::{Bytes, Lines, List, Memory};
use nntp_lines::{GroupName, MessageId};
use std::alloc::Global;

/// News servers in memory that share their articles, and the links to them, with their trace. An address that isn't listed
/// can't be opened, and a call for which there is no memory fails.
#[derive(Drop)]
pub struct Spool {
    plan: SpoolPlan,
    articles: HeldArticles,
    links: Vec<LinkState>,
    turn: usize,
    log: LinkLog,
    faults: u64,
    blame: Option<Blame>,
    ghost as_many: { length links.items ≡ length (log_live log) },
    ghost served: { IsTrue (are_served (length plan.servers) links.items) },
}

impl Spool {
    ghost use Rattle.held_articles.specs.Articles.{is_known, new_article};
    ghost use Rattle.news_spool.specs.History.{GoesOnBy, HasHistory, added};
    ghost use Rattle.news_spool.specs.Spool.{KeepsLinks, KeepsOutside, spool_articles, spool_blame, spool_events, spool_faults, spool_held, spool_links, spool_live, spool_plan, spool_turn};
    ghost use Rattle.io_traits.specs.declared.links.LinkEvent.TheVariants.{Ended, Sent};
    ghost use Rattle.news_spool.specs.declared.error.SpoolError.TheVariants as errors;

    /// Servers without an article, of which no link is open. No byte of the plan's date is below 32.
    pub fn new(alloc: Global, plan: SpoolPlan) -> Result<Self, Memory>
        requires date { All (λ byte. 32 ≤ byte) plan.date }
        ensures plan { IfOk result (λ spool. spool_plan spool ≡ plan) }
        ensures articles { IfOk result (λ spool. spool_articles spool ≡ []) }
        ensures links { IfOk result (λ spool. spool_links spool ≡ []) }
        ensures turn { IfOk result (λ spool. spool_turn spool ≡ 0) }
        ensures live { IfOk result (λ spool. spool_live spool ≡ []) }
        ensures events { IfOk result (λ spool. spool_events spool ≡ []) }
        ensures faults { IfOk result (λ spool. spool_faults spool ≡ 0) }
        ensures blame { IfOk result (λ spool. spool_blame spool ≡ None) }
        ensures history { IfOk result (λ spool. HasHistory spool []) }
    {
        Ok(Spool {
            plan,
            articles: HeldArticles::new(alloc),
            links: Vec::new(alloc),
            turn: 0,
            log: LinkLog::new(alloc),
            faults: 0,
            blame: None,
        })
    }

    /// How many articles there are.
    pub fn articles(&self) -> usize
        ensures { result ≡ length (spool_articles self.now) }
    {
        self.articles.len()
    }

    /// All that happened on links, in order.
    pub fn events(&self) -> &[LinkEvent]
        ensures { result.now ≡ spool_events self.now }
    {
        self.log.events()
    }

    /// Places an article behind those that are there, or changes nothing. `Known` comes exactly where one has its
    /// message-id.
    pub fn add(
        &mut self,
        id: MessageId,
        group: GroupName,
        head: Lines,
        body: Lines,
    ) -> Result<(), SpoolError>
        // What ends a line stands in none.
        requires head { All HoldsNoLineEnd head }
        requires body { All HoldsNoLineEnd body }
        ensures ok { OnOk result (spool_articles self.new ≡ spool_articles self.old ++ new_article id group head body ∷ []) }
        ensures known { (result ≡ Err errors.Known) ↔ IsTrue (is_known id (spool_articles self.old)) }
        ensures err { OnErr result (spool_articles self.new ≡ spool_articles self.old) }
        ensures links { KeepsLinks self.old self.new }
        ensures history { OnOk result (GoesOnBy self.old self.new (added (new_article id group head body) ∷ [])) }
    {
        if self.articles.is_known(&id) {
            return Err(SpoolError::Known);
        }
        let mut newsgroups = Bytes::new(self.log.alloc());
        if newsgroups.extend(group.as_slice()).is_err() {
            return Err(SpoolError::Memory);
        }
        let article = Article {
            id,
            newsgroups,
            head,
            body: BlockLines::from_lines(body),
        };
        match self.articles.add(article) {
            Ok(()) => Ok(()),
            Err(_) => Err(SpoolError::Memory),
        }
    }

    // OpensLink the next link to the server with an address, where there is one. `Failed` changes nothing.
    #[tactic(auto, using(crate::proofs::Served::one_more))]
    fn open_link(&mut self, address: &[u8]) -> Result<u32, Failed>
        ensures number { IfOk result (λ link. link ≡ length (spool_live self.old)) }
        ensures live { spool_live self.new ≡ live_after_open (spool_live self.old) result }
        ensures events { spool_events self.new ≡ spool_events self.old ++ opened_events address.now result }
        ensures links { IfOk result (λ link. OpensLink (spool_plan self.old) address.now link (spool_links self.old) (spool_links self.new)) }
        ensures none { OnErr result (spool_links self.new ≡ spool_links self.old) }
        ensures listed { server_of (spool_plan self.old).servers address.now ≡ None → IsErr result }
        ensures plan { spool_plan self.new ≡ spool_plan self.old }
        ensures articles { spool_articles self.new ≡ spool_articles self.old }
        ensures turn { spool_turn self.new ≡ spool_turn self.old }
        ensures faults { spool_faults self.new ≡ spool_faults self.old }
        ensures blame { spool_blame self.new ≡ spool_blame self.old }
    {
        let server = match server_of(self.plan.servers.as_slice(), address) {
            Some(server) => server,
            None => return Err(Failed),
        };
        let (ends_in, quiet_in) = bounds_of(self.plan.links.as_slice(), self.links.len());
        let state = match LinkState::new(self.log.alloc(), server, ends_in, quiet_in) {
            Ok(state) => state,
            Err(Memory) => return Err(Failed),
        };
        if self.links.reserve(1).is_err() {
            return Err(Failed);
        }
        match self.log.open(address) {
            Ok(link) => match self.links.push(state) {
                Ok(()) => Ok(link),
                Err(_) => unreachable!(),
            },
            Err(Failed) => Err(Failed),
        }
    }

    // Hears bytes on a link. Where memory runs out, articles may have been kept.
    fn hear(&mut self, link: u32, bytes: &[u8]) -> Result<(), Memory>
        requires { link < length (spool_links self.old) }
        ensures ok { OnOk result (spool_held self.new ≡ after_sent (spool_plan self.old) link bytes.now (spool_held self.old)) }
        ensures kept { take (length (spool_articles self.old)) (spool_articles self.new) ≡ spool_articles self.old }
        ensures ended { after_end link (spool_links self.new) ≡ after_end link (spool_links self.old) }
        ensures turn { spool_turn self.new ≡ spool_turn self.old }
        ensures outside { KeepsOutside self.old self.new }
    {
        let alloc = self.log.alloc();
        let state = &mut self.links[link as usize];
        let server = server_at(self.plan.servers.as_slice(), state.server);
        let date = self.plan.date.as_slice();
        state.hear(alloc, server, date, bytes, &mut self.articles)
    }

    // Hears bytes on a link, and tells them. Where memory runs out, articles may have been kept.
    fn take(&mut self, link: u32, bytes: &[u8]) -> Result<(), Memory>
        requires { link < length (spool_links self.old) }
        ensures ok { OnOk result (spool_held self.new ≡ after_sent (spool_plan self.old) link bytes.now (spool_held self.old)) }
        ensures kept { take (length (spool_articles self.old)) (spool_articles self.new) ≡ spool_articles self.old }
        ensures ended { after_end link (spool_links self.new) ≡ after_end link (spool_links self.old) }
        ensures turn { spool_turn self.new ≡ spool_turn self.old }
        ensures live { spool_live self.new ≡ spool_live self.old }
        ensures events { OnOk result (spool_events self.new ≡ spool_events self.old ++ Sent link bytes.now ∷ []) }
        ensures silent { OnErr result (spool_events self.new ≡ spool_events self.old) }
        ensures plan { spool_plan self.new ≡ spool_plan self.old }
        ensures faults { spool_faults self.new ≡ spool_faults self.old }
        ensures blame { spool_blame self.new ≡ spool_blame self.old }
    {
        match self.hear(link, bytes) {
            Ok(()) => self.log.tell_sent(link, bytes),
            Err(Memory) => Err(Memory),
        }
    }

    // Counts a failed opening, and blames it.
    fn refuse_opening(&mut self, address: &[u8])
        ensures faults { spool_faults self.new ≡ next_count (spool_faults self.old) }
        ensures later { spool_faults self.old ≤ spool_faults self.new }
        ensures rose { Rose (spool_faults self.old) (spool_faults self.new) }
        ensures blame { (spool_blame self.new ≡ Some (Blame.Open address.now)) ⊎ (spool_blame self.new ≡ None) }
        ensures plan { spool_plan self.new ≡ spool_plan self.old }
        ensures articles { spool_articles self.new ≡ spool_articles self.old }
        ensures links { spool_links self.new ≡ spool_links self.old }
        ensures turn { spool_turn self.new ≡ spool_turn self.old }
        ensures live { spool_live self.new ≡ spool_live self.old }
        ensures events { spool_events self.new ≡ spool_events self.old }
    {
        self.faults = raised(self.faults);
        self.blame = opening(self.log.alloc(), address);
    }

    // Ends a live link, and gives back what it held.
    fn end(&mut self, link: u32)
        requires { slice_get (spool_live self.old) link ≡ Some true }
        ensures links { spool_links self.new ≡ after_end link (spool_links self.old) }
        ensures live { spool_live self.new ≡ slice_set (spool_live self.old) link false }
        ensures events { spool_events self.new ≡ spool_events self.old ++ Ended link ∷ [] }
        ensures plan { spool_plan self.new ≡ spool_plan self.old }
        ensures articles { spool_articles self.new ≡ spool_articles self.old }
        ensures turn { spool_turn self.new ≡ spool_turn self.old }
        ensures faults { spool_faults self.new ≡ spool_faults self.old }
        ensures blame { spool_blame self.new ≡ spool_blame self.old }
    {
        let alloc = self.log.alloc();
        self.log.end(link);
        let state = &mut self.links[link as usize];
        state.end(alloc);
    }

    // Counts a failed call on a live link, blames it, and ends the link.
    fn fail(&mut self, link: u32, call: Blame)
        requires { slice_get (spool_live self.old) link ≡ Some true }
        ensures faults { spool_faults self.new ≡ next_count (spool_faults self.old) }
        ensures later { spool_faults self.old ≤ spool_faults self.new }
        ensures rose { Rose (spool_faults self.old) (spool_faults self.new) }
        ensures blame { spool_blame self.new ≡ Some call }
        ensures links { spool_links self.new ≡ after_end link (spool_links self.old) }
        ensures live { spool_live self.new ≡ slice_set (spool_live self.old) link false }
        ensures events { spool_events self.new ≡ spool_events self.old ++ Ended link ∷ [] }
        ensures plan { spool_plan self.new ≡ spool_plan self.old }
        ensures articles { spool_articles self.new ≡ spool_articles self.old }
        ensures turn { spool_turn self.new ≡ spool_turn self.old }
    {
        self.end(link);
        self.faults = raised(self.faults);
        self.blame = Some(call);
    }

    // So many bytes of those that a link was owed were given.
    fn pass(&mut self, link: u32, n: usize)
        requires link { link < length (spool_links self.old) }
        requires owed { CanGive n (state_at (spool_links self.old) link) }
        ensures links { spool_links self.new ≡ slice_set (spool_links self.old) link (given n (state_at (spool_links self.old) link)) }
        ensures articles { spool_articles self.new ≡ spool_articles self.old }
        ensures turn { spool_turn self.new ≡ spool_turn self.old }
        ensures outside { KeepsOutside self.old self.new }
    {
        let state = &mut self.links[link as usize];
        state.pass(n);
    }

    // What is due on a link, the bytes of which are copied to the front of the buffer.
    fn next_on(&self, link: u32, buf: &mut [u8]) -> Due
        requires link { link < length (spool_links self.now) }
        requires room { 0 < length buf.old }
        ensures due { result ≡ due_at (spool_plan self.now) (spool_turn self.now) (spool_links self.now) link (length buf.old) }
        ensures fits { DueFits (length buf.old) (state_at (spool_links self.now) link) result }
        ensures owed { GivesOwed (spool_links self.now) link buf.new (got_of result) }
    {
        let state = &self.links[link as usize];
        let piece = piece_at(self.plan.pieces.as_slice(), self.turn);
        match state.due(piece, buf.len()) {
            Due::Bytes(n) => {
                buf[..n].copy_from_slice(&state.owed()[..n]);
                Due::Bytes(n)
            }
            Due::Quiet => Due::Quiet,
            Due::End => Due::End,
        }
    }
}

// Which server is the first with an address.
fn server_of(servers: &[SpoolServer], address: &[u8]) -> Option<usize>
    ensures { result ≡ server_of servers.now address.now }
{
    servers
        .iter()
        .position(|server| server.address.as_slice() == address)
}

// A server.
#[tactic(auto, using(crate::proofs::LinkLaws::server_is))]
fn server_at(servers: &[SpoolServer], server: usize) -> &SpoolServer
    requires { server < length servers.now }
    ensures { result.now ≡ server_at servers.now server }
{
    &servers[server]
}

// The first entry for the link of this number.
fn entry_of(entries: &[SpoolLink], link: usize) -> Option<SpoolLink>
    ensures { result ≡ entry_of entries.now link }
{
    entries
        .iter()
        .copied()
        .find(|entry| entry.link as usize == link)
}

// After how many bytes the link of this number is to end, and to be quiet.
fn bounds_of(entries: &[SpoolLink], link: usize) -> (Option<u64>, Option<u64>)
    ensures ends { result.0 ≡ ends_after entries.now link }
    ensures quiet { result.1 ≡ quiet_after entries.now link }
{
    match entry_of(entries, link) {
        Some(entry) => (entry.ends_after, entry.quiet_after),
        None => (None, None),
    }
}

impl Links for Spool {
    ghost use Rattle.news_spool.specs.History.{GoesOnBy, all_told};
    ghost use Rattle.news_spool.specs.Spool.{spool_articles, spool_blame, spool_events, spool_faults, spool_held, spool_links, spool_live, spool_plan, spool_turn};

    ghost faults = { spool_faults };

    ghost live = { spool_live };

    ghost trace = { λ s. Some (spool_events s) };

    ghost blame = { λ s. Some (spool_blame s) };

    ghost keeps_turns = { true };

    /// OpensLink a link to the first server with this address, which owes its greeting.
    fn open(&mut self, address: &[u8]) -> Result<u32, Failed>
        ensures cause { HasCause (spool_faults self.old) (spool_faults self.new) result }
        ensures blame { BlamesNamed (Some (spool_blame self.old)) (Some (spool_blame self.new)) (Blame.Open address.now) result }
        ensures number { IfOk result (λ link. link ≡ length (spool_live self.old)) }
        ensures live { spool_live self.new ≡ live_after_open (spool_live self.old) result }
        ensures trace { Some (spool_events self.new) ≡ tell (Some (spool_events self.old)) (opened_events address.now result) }

        // An address that isn't listed can't be opened. A failed call is counted.
        ensures listed { server_of (spool_plan self.old).servers address.now ≡ None → IsErr result }
        ensures counted { OnErr result (spool_faults self.new ≡ next_count (spool_faults self.old)) }

        // The link comes behind the others, as the plan has it. Nothing else changes.
        ensures opened { IfOk result (λ link. OpensLink (spool_plan self.old) address.now link (spool_links self.old) (spool_links self.new)) }
        ensures none { OnErr result (spool_links self.new ≡ spool_links self.old) }
        ensures articles { spool_articles self.new ≡ spool_articles self.old }
        ensures turn { spool_turn self.new ≡ spool_turn self.old }
        ensures plan { spool_plan self.new ≡ spool_plan self.old }
        ensures history { GoesOnBy self.old self.new (all_told (opened_events address.now result)) }
    {
        match self.open_link(address) {
            Ok(link) => Ok(link),
            Err(Failed) => {
                self.refuse_opening(address);
                Err(Failed)
            }
        }
    }

    /// Sends the whole piece. The server hears it byte by byte, and answers each command, and each article, with its last
    /// byte.
    fn send(&mut self, link: u32, bytes: &[u8]) -> Result<usize, Failed>
        requires live { slice_get (spool_live self.old) link ≡ Some true }
        requires some { 0 < length bytes.now }
        ensures cause { HasCause (spool_faults self.old) (spool_faults self.new) result }
        ensures blame { Some (spool_blame self.new) ≡ blame_after (Some (spool_blame self.old)) (Blame.Send link) result }
        ensures count { IfOk result (λ n. (0 < n) × (n ≤ length bytes.now)) }
        ensures live { spool_live self.new ≡ live_after_send (spool_live self.old) link result }
        ensures trace { Some (spool_events self.new) ≡ tell (Some (spool_events self.old)) (sent_events link bytes.now result) }

        // All bytes go out. A failed call is counted.
        ensures whole { IfOk result (λ n. n ≡ length bytes.now) }
        ensures counted { OnErr result (spool_faults self.new ≡ next_count (spool_faults self.old)) }

        // The link and the articles are what the bytes make of them. A call that failed ends the link and does no more.
        ensures heard { OnOk result (spool_held self.new ≡ after_sent (spool_plan self.old) link bytes.now (spool_held self.old)) }
        ensures ended { OnErr result (spool_links self.new ≡ after_end link (spool_links self.old)) }
        ensures articles { OnErr result (spool_articles self.new ≡ spool_articles self.old) }
        ensures turn { spool_turn self.new ≡ spool_turn self.old }
        ensures plan { spool_plan self.new ≡ spool_plan self.old }
        ensures history { GoesOnBy self.old self.new (all_told (sent_events link bytes.now result)) }
    {
        let before = self.articles.len();
        match self.take(link, bytes) {
            Ok(()) => Ok(bytes.len()),
            Err(Memory) => {
                self.articles.truncate(before);
                self.fail(link, Blame::Send(link));
                Err(Failed)
            }
        }
    }

    /// Receives the next bytes of the replies to what was sent on the link.
    fn receive(&mut self, link: u32, buf: &mut [u8]) -> Got
        requires live { slice_get (spool_live self.old) link ≡ Some true }
        requires room { 0 < length buf.old }
        ensures cause { GotHasCause (spool_faults self.old) (spool_faults self.new) result }
        ensures blame { Some (spool_blame self.new) ≡ blame_after_receive (Some (spool_blame self.old)) (Blame.Receive link) result }
        ensures count { GotFits (length buf.old) result }
        ensures live { spool_live self.new ≡ live_after_receive (spool_live self.old) link result }
        ensures trace { Some (spool_events self.new) ≡ tell (Some (spool_events self.old)) (heard_events link buf.new result) }

        // What is due comes, unless the call fails, which is counted.
        ensures due { UnlessFailed result (result ≡ got_of (due_at (spool_plan self.old) (spool_turn self.old) (spool_links self.old) link (length buf.old))) }
        ensures counted { OnFailed result (spool_faults self.new ≡ next_count (spool_faults self.old)) }

        // The bytes are the next ones that are owed, and are owed no more. The next receive is bounded by the next piece.
        ensures owed { GivesOwed (spool_links self.old) link buf.new result }
        ensures links { spool_links self.new ≡ after_receive (spool_links self.old) link result }
        ensures turn { spool_turn self.new ≡ next_turn (length (spool_plan self.old).pieces) (spool_turn self.old) }
        ensures articles { spool_articles self.new ≡ spool_articles self.old }
        ensures plan { spool_plan self.new ≡ spool_plan self.old }
        ensures history { GoesOnBy self.old self.new (all_told (heard_events link buf.new result)) }
    {
        let due = self.next_on(link, buf);
        self.turn = next_turn(self.plan.pieces.len(), self.turn);
        match due {
            Due::Bytes(n) => match self.log.tell_heard(link, &buf[..n]) {
                Ok(()) => {
                    self.pass(link, n);
                    Got::Bytes(n)
                }
                Err(Memory) => {
                    self.fail(link, Blame::Receive(link));
                    Got::Failed
                }
            },
            Due::Quiet => match self.log.tell_quiet(link) {
                Ok(()) => Got::Quiet,
                Err(Memory) => {
                    self.fail(link, Blame::Receive(link));
                    Got::Failed
                }
            },
            Due::End => {
                self.end(link);
                Got::Closed
            }
        }
    }
}
