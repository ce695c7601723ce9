// The opening of a link.
ghost use Rattle.std.specs.Prelude.{◌≤◌, ◌<◌, IfOk, IfErr, Option};
ghost use Rattle.nntp_lines.specs.declared.login.Login.{Login};
ghost use Rattle.link_dialog.specs.Talk.{IsGreeted, IsNotGreeted, OnNoLink, OpeningFailed};

use crate::hearing::hear_reply;
use crate::{Answer, Awaited, Dialog, NotOpen};
use io_traits::{Failed, Links};
use nntp_lines::Why;

// Opens a link and hears its greeting.
pub(crate) fn greet<L: Links>(
    links: &mut L,
    address: &[u8],
    patience: u32,
) -> Result<Dialog, NotOpen>
    requires { 0 < patience }
    ensures faults { L.faults links.old ≤ L.faults links.new }
    ensures greeted { (login : Option Login) → IfOk result (λ dialog. IsGreeted (record { before = L.trace links.old; address = address.now; login = login }) (L.trace links.new) (L.live links.new) patience dialog) }
    ensures over { (login : Option Login) → IfErr result (λ why. IsNotGreeted (record { before = L.trace links.old; address = address.now; login = login }) (L.trace links.new) patience why) }
    ensures cause { IfErr result (λ why. OnNoLink why (OpeningFailed (L.faults links.old) (L.faults links.new) (L.blame links.old) (L.blame links.new) address.now)) }
{
    let link = match links.open(address) {
        Ok(link) => link,
        Err(Failed) => return Err(NotOpen::NoLink),
    };
    match hear_reply(links, link, patience, Awaited::Greeting) {
        Answer::Code(_) => Ok(Dialog { link, patience }),
        Answer::Unasked(_) => Err(NotOpen::Over(Why::Unasked)),
        Answer::Over(why) => Err(NotOpen::Over(why)),
    }
}
