// The command `index`.
ghost use Rattle.std.specs.Prelude.{◌≡◌, None, IfOk};
ghost use Rattle.std.specs.Option.{option_copied};
ghost use Rattle.nzb_writer.specs.Canonical.{IsValidIndex, nzb_text};
ghost use Rattle.command_words.specs.Index.{IsIndexAllowed, index_found};
ghost use Rattle.input_files.specs.Reading.{reading};
ghost use Rattle.command_words.specs.CommandLine.Words.{Asks};
ghost use Rattle.command_words.specs.CommandLine.Command.{Index as AsksIndex};
ghost use Rattle.usebin_cli.specs.Ended.{WritesBehind};
ghost use Rattle.usebin_cli.specs.Index.{Indexes, skipped_line};
ghost use Rattle.usebin_cli.specs.Linked.{linked};
ghost use Rattle.usebin_cli.specs.Steps.{IndexesGroup, Runs, TellsIndexed};
ghost use Rattle.usebin_cli.specs.Writing.{written};

use crate::ended::{Ended, write_behind};
use crate::login::server_login;
use crate::printed::write_skipped;
use command_words::IndexWords;
use io_traits::{Input, Links, Sink};
use lists::{Bytes, Memory};
use nzb_writer::{Index, write_nzb};
use overview_index::{GroupError, IndexError, Indexed, run_index};
use run_ends::{End, Limit};
use std::alloc::Global;

/// Asks the overview of a newsgroup over one link, and writes the index of what it lists.
pub(crate) fn index<I: Input, L: Links, O: Sink, E: Sink>(
    alloc: Global,
    asked: IndexWords<'_>,
    input: &mut I,
    links: &mut L,
    out: &mut O,
    err: &mut E,
) -> Ended
    requires { IsIndexAllowed (index_found asked) }
    ensures runs { Runs (Asks (AsksIndex (index_found asked.entry)))
        (Indexes (index_found asked.entry) (I.files input.old) (reading I.Input input.old input.new) (linked L.Links links.old links.new))
        (reading I.Input input.old input.new) (written O.Sink out.old out.new) (written E.Sink err.old err.new) result }
    ensures unread { option_copied asked.entry.login ≡ None → input.new ≡ input.old }
{
    match index_group(alloc, &asked, input, links) {
        Ok(indexed) => tell_indexed(alloc, &indexed, out, err),
        Err(end) => Ended { end, is_told: true },
    }
}

// Reads the login file, if one is named, and asks the overview over one link.
fn index_group<I: Input, L: Links>(
    alloc: Global,
    asked: &IndexWords<'_>,
    input: &mut I,
    links: &mut L,
) -> Result<Indexed, End>
    requires { IsIndexAllowed (index_found asked.now) }
    ensures ends { IndexesGroup (index_found asked.now) (I.files input.old) (reading I.Input input.old input.new)
        (linked L.Links links.old links.new) result }
    ensures unread { option_copied asked.now.login ≡ None → input.new ≡ input.old }
{
    let login = match server_login(alloc, asked.login, asked.server, input) {
        Ok(login) => login,
        Err(end) => return Err(end),
    };
    match run_index(
        alloc,
        links,
        asked.server,
        &asked.group,
        asked.first,
        asked.last,
        asked.patience,
        login.as_ref(),
    ) {
        Ok(indexed) => Ok(indexed),
        Err(IndexError::Memory) => Err(End::NoMemory),
        Err(IndexError::NoLink) => Err(End::NoLink),
        Err(IndexError::Refused(code)) => Err(End::Refused(code)),
        Err(IndexError::Over(why)) => Err(End::Over(why)),
        Err(IndexError::Full(GroupError::Segments)) => Err(End::Limit(Limit::Segments)),
        Err(IndexError::Full(GroupError::Files)) => Err(End::Limit(Limit::Files)),
        Err(IndexError::Full(GroupError::Memory)) => unreachable!(),
    }
}

// Notes how many lines were skipped, and writes the index.
fn tell_indexed<O: Sink, E: Sink>(
    alloc: Global,
    indexed: &Indexed,
    out: &mut O,
    err: &mut E,
) -> Ended
    requires { IsValidIndex indexed.now.index }
    ensures { TellsIndexed indexed.now (written O.Sink out.old out.new) (written E.Sink err.old err.new) result }
{
    let Ok(text) = text_of(alloc, &indexed.index) else {
        return Ended {
            end: End::NoMemory,
            is_told: true,
        };
    };
    write_index(indexed.skipped, text.as_slice(), out, err)
}

// Notes how many lines were skipped, and writes a text.
fn write_index<O: Sink, E: Sink>(skipped: u64, text: &[u8], out: &mut O, err: &mut E) -> Ended
    ensures { WritesBehind (skipped_line skipped) text.now End.Done (written O.Sink out.old out.new) (written E.Sink err.old err.new) result }
{
    let mut line = [0; 160];
    let len = write_skipped(skipped, &mut line);
    write_behind(&line[..len], text, End::Done, out, err)
}

// The NZB text of an index.
fn text_of(alloc: Global, index: &Index) -> Result<Bytes, Memory>
    requires { IsValidIndex index.now }
    ensures { IfOk result (λ text. text ≡ nzb_text index.now) }
{
    let mut text = Bytes::new(alloc);
    write_nzb(index, &mut text)?;
    Ok(text)
}
