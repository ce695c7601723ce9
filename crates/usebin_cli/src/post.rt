// The command `post`.
ghost use Rattle.std.specs.Prelude.{◌≡◌, ◌≤◌, ◌++◌, OnOk, IfOk, IsTrue, ◌↔◌};
ghost use Rattle.command_words.specs.Post.{IsPostAllowed, post_found};
ghost use Rattle.input_files.specs.Reading.{reading};
ghost use Rattle.poster.specs.Index.{AreOutcomes};
ghost use Rattle.poster.specs.Plan.{IsPlanOf};
ghost use Rattle.poster.specs.Settings.{AreSettings};
ghost use Rattle.command_words.specs.CommandLine.Words.{Asks};
ghost use Rattle.command_words.specs.CommandLine.Command.{Post as AsksPost};
ghost use Rattle.usebin_cli.specs.Linked.{linked};
ghost use Rattle.usebin_cli.specs.Post.{AreAllPosted, IsWholeEnd, Posts, posted_text, settings_of};
ghost use Rattle.usebin_cli.specs.PostText.{part_line, part_lines};
ghost use Rattle.usebin_cli.specs.Steps.{PlansFile, PostsFile, Runs, TellsPosted};
ghost use Rattle.usebin_cli.specs.Writing.{written};
ghost use Rattle.limits.specs.declared.TheConstants.{LAST_MOMENT};

use crate::ended::{Ended, note, write_behind};
use crate::login::server_login;
use crate::printed::write_end;
use command_words::PostWords;
use io_traits::{Input, Links, Sink};
use limits::{MOST_FILE_BYTES, MOST_SEGMENTS};
use lists::{Bytes, List, Memory, bytes_of};
use nntp_lines::Login;
use nzb_writer::write_nzb;
use poster::{PartEnd, Plan, PostError, Sent, Settings, plan, post_index, run_post};
use run_ends::{End, Limit};
use std::alloc::Global;
use yenc_body::parts_of;

// A file that is to be posted: how, and in which parts.
#[derive(Drop)]
pub(crate) struct PlannedFile {
    pub(crate) settings: Settings,
    pub(crate) plan: Plan,
}

// A file that was posted: what became of its parts, and the code with which `POST` was refused, if it was.
#[derive(Drop)]
pub(crate) struct PostedFile {
    pub(crate) file: PlannedFile,
    pub(crate) sent: List<Sent>,
    pub(crate) refused: Option<u16>,
}

/// Posts a file over one link, and writes the index of what was posted.
pub(crate) fn post<I: Input, L: Links, O: Sink, E: Sink>(
    alloc: Global,
    asked: PostWords<'_>,
    moment: u64,
    input: &mut I,
    links: &mut L,
    out: &mut O,
    err: &mut E,
) -> Ended
    requires allowed { IsPostAllowed (post_found asked) }
    requires moment { moment ≤ LAST_MOMENT }
    ensures { Runs (Asks (AsksPost (post_found asked.entry)))
        (Posts (post_found asked.entry) (I.files input.old) moment (reading I.Input input.old input.new) (linked L.Links links.old links.new))
        (reading I.Input input.old input.new) (written O.Sink out.old out.new) (written E.Sink err.old err.new) result }
{
    match post_file(alloc, &asked, input, links) {
        Ok(posted) => tell_posted(alloc, &posted, moment, out, err),
        Err(end) => Ended { end, is_told: true },
    }
}

// Posts a file over one link.
fn post_file<I: Input, L: Links>(
    alloc: Global,
    asked: &PostWords<'_>,
    input: &mut I,
    links: &mut L,
) -> Result<PostedFile, End>
    requires { IsPostAllowed (post_found asked.now) }
    ensures { PostsFile (post_found asked.now) (I.files input.old) (reading I.Input input.old input.new)
        (linked L.Links links.old links.new) result }
{
    let file = match plan_file(alloc, asked, input) {
        Ok(file) => file,
        Err(end) => return Err(end),
    };
    match run_post(alloc, &file.settings, &file.plan, input, links) {
        Ok(sent) => Ok(PostedFile {
            file,
            sent,
            refused: None,
        }),
        Err(PostError::Refused(code, sent)) => Ok(PostedFile {
            file,
            sent,
            refused: Some(code),
        }),
        Err(PostError::Memory) => Err(End::NoMemory),
        Err(PostError::Input) => Err(End::InputFault),
        Err(PostError::Short(place)) => Err(End::Short(place)),
        Err(PostError::NoLink) => Err(End::NoLink),
        Err(PostError::Over(why)) => Err(End::Over(why)),
    }
}

// Reads the login file, if one is named, and then plans the file. Its limits are judged before memory is taken for it.
fn plan_file<I: Input>(
    alloc: Global,
    asked: &PostWords<'_>,
    input: &mut I,
) -> Result<PlannedFile, End>
    requires { IsPostAllowed (post_found asked.now) }
    ensures { PlansFile (post_found asked.now) (I.files input.old) (reading I.Input input.old input.new) (I.content input.new) result }
{
    let login = match server_login(alloc, asked.login, asked.server, input) {
        Ok(login) => login,
        Err(end) => return Err(end),
    };
    let Ok(size) = input.open(asked.path) else {
        return Err(End::InputFault);
    };
    if size > MOST_FILE_BYTES {
        return Err(End::Limit(Limit::File));
    }
    if parts_of(size, asked.part_size as u64) > MOST_SEGMENTS as u64 {
        return Err(End::Limit(Limit::Segments));
    }
    let Ok(settings) = settings_of(alloc, asked, login) else {
        return Err(End::NoMemory);
    };
    match plan(alloc, &settings, size) {
        Ok(plan) => Ok(PlannedFile { settings, plan }),
        Err(_) => Err(End::NoMemory),
    }
}

// What is asked for, with a login or without.
fn settings_of(
    alloc: Global,
    asked: &PostWords<'_>,
    login: Option<Login>,
) -> Result<Settings, Memory>
    ensures { IfOk result (λ settings. settings ≡ settings_of (post_found asked.now) login) }
{
    Ok(Settings {
        server: bytes_of(alloc, asked.server)?,
        login,
        from: bytes_of(alloc, asked.from)?,
        newsgroups: bytes_of(alloc, asked.newsgroups)?,
        token: bytes_of(alloc, asked.token)?,
        domain: bytes_of(alloc, asked.domain)?,
        comment: bytes_of(alloc, asked.comment)?,
        name: asked.name.clone()?,
        line: asked.line,
        part_size: u64::from(asked.part_size),
        patience: asked.patience,
    })
}

// Tells the parts that aren't posted, and writes the index of all.
fn tell_posted<O: Sink, E: Sink>(
    alloc: Global,
    posted: &PostedFile,
    moment: u64,
    out: &mut O,
    err: &mut E,
) -> Ended
    requires settings { AreSettings posted.now.file.settings }
    requires plan { IsPlanOf posted.now.file.settings posted.now.file.plan.size posted.now.file.plan }
    requires sent { AreOutcomes posted.now.file.plan posted.now.sent }
    requires moment { moment ≤ LAST_MOMENT }
    ensures { TellsPosted posted.now moment (written O.Sink out.old out.new) (written E.Sink err.old err.new) result }
{
    let sent = posted.sent.as_slice();
    let Ok(lines) = lines_of(alloc, sent) else {
        return Ended {
            end: End::NoMemory,
            is_told: true,
        };
    };
    if let Some(code) = posted.refused {
        return Ended {
            end: End::Refused(code),
            is_told: note(lines.as_slice(), err),
        };
    }
    let Ok(text) = index_text(alloc, posted, moment) else {
        return Ended {
            end: End::NoMemory,
            is_told: true,
        };
    };
    write_behind(lines.as_slice(), text.as_slice(), whole_end(sent), out, err)
}

// How a post ends where the text of its index was written whole.
fn whole_end(sent: &[Sent]) -> End
    ensures { IsWholeEnd sent.now result }
{
    if are_posted(sent) {
        End::Done
    } else {
        End::NotAllPosted
    }
}

// The NZB text of the index of what was posted.
fn index_text(alloc: Global, posted: &PostedFile, moment: u64) -> Result<Bytes, Memory>
    requires settings { AreSettings posted.now.file.settings }
    requires plan { IsPlanOf posted.now.file.settings posted.now.file.plan.size posted.now.file.plan }
    requires sent { AreOutcomes posted.now.file.plan posted.now.sent }
    requires moment { moment ≤ LAST_MOMENT }
    ensures { IfOk result (λ text. text ≡ posted_text posted.now moment) }
{
    let index = post_index(
        alloc,
        &posted.file.settings,
        &posted.file.plan,
        &posted.sent,
        moment,
    )?;
    let mut text = Bytes::new(alloc);
    write_nzb(&index, &mut text)?;
    Ok(text)
}

// Whether each part was posted.
fn are_posted(sent: &[Sent]) -> bool
    ensures { IsTrue result ↔ AreAllPosted sent.now }
{
    sent.iter().all(|part| part.end == PartEnd::Posted)
}

// The lines of the parts that aren't posted.
fn lines_of(alloc: Global, sent: &[Sent]) -> Result<Bytes, Memory>
    ensures { IfOk result (λ text. text ≡ part_lines 1 sent.now) }
{
    let mut text = Bytes::new(alloc);
    for (before, part) in sent.iter().enumerate() {
        push_line(before as u64 + 1, part.end, &mut text)?;
    }
    Ok(text)
}

// Appends the line of a part, where it isn't posted.
fn push_line(number: u64, end: PartEnd, text: &mut Bytes) -> Result<(), Memory>
    ensures { OnOk result (text.new ≡ text.old ++ part_line number end) }
{
    let mut line = [0; 160];
    let len = match end {
        PartEnd::Posted => 0,
        PartEnd::Refused(_) | PartEnd::Unsure | PartEnd::NotSent => {
            write_end(number, end, &mut line)
        }
    };
    text.extend(&line[..len])
}
