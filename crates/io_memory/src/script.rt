// What a server in memory says, turn by turn.
ghost use Rattle.std.specs.Prelude.{◌≡◌, ◌<◌, length};
ghost use Rattle.io_traits.specs.Links.{GotFits};
ghost use Rattle.io_memory.specs.Script.{GivesPiece, due, got_of, is_spent, left_of, rest_at};

use crate::mem_input::copy_from;
use io_traits::Got;
use lists::Bytes;

/// What comes next on a link.
#[derive(Drop)]
pub enum Turn {
    /// These bytes, in as many receives as their buffers ask for. A piece without a byte is passed over.
    Give(Bytes),
    /// A receive that finds nothing.
    Quiet,
    /// The link's end.
    End,
    /// A receive that fails.
    Fail,
}

// A place in a script: so many turns are over, and of the next one's piece so many bytes were given.
#[derive(Clone, Copy)]
pub(crate) struct Place {
    pub(crate) turn: usize,
    pub(crate) given: usize,
}

// Takes what a receive gets of a script from a place on, and answers it, with the place behind it.
pub(crate) fn take_turn(script: &[Turn], place: Place, buf: &mut [u8]) -> (Got, Place)
    requires { 0 < length buf.old }
    ensures got { result.0 ≡ got_of (length buf.old) (due (rest_at place script.now)) }
    ensures fits { GotFits (length buf.old) result.0 }
    ensures piece { GivesPiece result.0 buf.new (due (rest_at place script.now)) }
    ensures left { rest_at result.1 script.now ≡ left_of (length buf.old) (due (rest_at place script.now)) }
{
    let place = due_place(script, place);
    if place.turn >= script.len() {
        return (Got::Quiet, place);
    }
    match &script[place.turn] {
        Turn::Give(bytes) => {
            let n = copy_from(bytes.as_slice(), place.given, buf);
            let behind = Place {
                turn: place.turn,
                given: place.given + n,
            };
            (Got::Bytes(n), behind)
        }
        Turn::Quiet => {
            let behind = Place {
                turn: place.turn + 1,
                given: 0,
            };
            (Got::Quiet, behind)
        }
        Turn::End => (Got::Closed, place),
        Turn::Fail => (Got::Failed, place),
    }
}

// The place of the next turn that isn't a piece all of whose bytes were given.
fn due_place(script: &[Turn], place: Place) -> Place
    ensures { rest_at result script.now ≡ due (rest_at place script.now) }
{
    let mut turn = place.turn;
    let mut given = place.given;
    while turn < script.len() && is_spent(given, &script[turn]) {
        turn += 1;
        given = 0;
    }
    Place { turn, given }
}

// Whether a turn is a piece of which all bytes were given.
fn is_spent(given: usize, turn: &Turn) -> bool
    ensures { result ≡ is_spent given turn.now }
{
    match turn {
        Turn::Give(bytes) => bytes.len() <= given,
        Turn::Quiet | Turn::End | Turn::Fail => false,
    }
}
