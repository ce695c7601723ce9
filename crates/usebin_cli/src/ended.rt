// How a command ended, and whether what it noted on its way was told.
ghost use Rattle.usebin_cli.specs.Ended.{SaysLine, WritesBehind};
ghost use Rattle.usebin_cli.specs.Writing.{Told, written};

use crate::writing::{say, write_all};
use io_traits::{Failed, Sink};
use run_ends::{End, write_line};

/// How a command ended. Where it noted something on standard error on its way, it also says whether that was written whole,
/// since nothing more is written there otherwise.
#[derive(Clone, Copy, Debug, PartialEq, Eq)]
pub(crate) struct Ended {
    pub(crate) end: End,
    pub(crate) is_told: bool,
}

/// Notes a text on standard error, and answers whether it was written whole.
pub(crate) fn note<E: Sink>(text: &[u8], err: &mut E) -> bool
    ensures { Told result text.now (written E.Sink err.old err.new) }
{
    match write_all(err, text) {
        Ok(()) => true,
        Err(Failed) => false,
    }
}

/// Notes a text on standard error, and then writes one. Where it could be written whole, the command ended so.
pub(crate) fn write_behind<O: Sink, E: Sink>(
    noted: &[u8],
    text: &[u8],
    whole: End,
    out: &mut O,
    err: &mut E,
) -> Ended
    ensures { WritesBehind noted.now text.now whole (written O.Sink out.old out.new) (written E.Sink err.old err.new) result }
{
    let is_told = note(noted, err);
    match write_all(out, text) {
        Ok(()) => Ended {
            end: whole,
            is_told,
        },
        Err(Failed) => Ended {
            end: End::OutputFault,
            is_told,
        },
    }
}

/// Says the line of an end, unless a write to standard error failed before.
pub(crate) fn say_end<E: Sink>(ended: &Ended, err: &mut E)
    ensures { SaysLine ended.now (written E.Sink err.old err.new) }
{
    if ended.is_told {
        let mut line = [0; 160];
        let len = write_line(&ended.end, &mut line);
        say(err, &line[..len]);
    }
}
