// The login at a news server, from the login file that the words name.
ghost use Rattle.std.specs.Prelude.{◌≡◌, None, OnOk};
ghost use Rattle.std.specs.Option.{option_copied};
ghost use Rattle.input_files.specs.Reading.{reading};
ghost use Rattle.usebin_cli.specs.Login.{FindsLoginAt, ReadsLoginFile};

use input_files::{ReadError, read_part};
use io_traits::Input;
use limits::MOST_LOGIN_BYTES;
use lists::Bytes;
use nntp_lines::Login;
use run_ends::{End, Limit};
use server_logins::{LoginError, read_logins};
use std::alloc::Global;

/// The login at a server, where a login file is named and has one. Where none is named, nothing is read.
pub(crate) fn server_login<I: Input>(
    alloc: Global,
    named: Option<&str>,
    server: &[u8],
    input: &mut I,
) -> Result<Option<Login>, End>
    ensures login { FindsLoginAt server.now (option_copied named.entry) (I.files input.old) (reading I.Input input.old input.new) result }
    ensures files { OnOk result (I.files input.new ≡ I.files input.old) }
    ensures unnamed { option_copied named.entry ≡ None → input.new ≡ input.old }
{
    let Some(path) = named else {
        return Ok(None);
    };
    let text = match login_text(alloc, path, input) {
        Ok(text) => text,
        Err(end) => return Err(end),
    };
    let logins = match read_logins(alloc, text.as_slice()) {
        Ok(logins) => logins,
        Err(LoginError::Memory) => return Err(End::NoMemory),
        Err(LoginError::Broken(number)) => return Err(End::LoginBroken(number)),
    };
    match logins.login_for(server) {
        Some(login) => match login.clone() {
            Ok(login) => Ok(Some(login)),
            Err(_) => Err(End::NoMemory),
        },
        None => Ok(None),
    }
}

// The text of the login file at a path.
fn login_text<I: Input>(alloc: Global, path: &str, input: &mut I) -> Result<Bytes, End>
    ensures text { ReadsLoginFile path.now (I.files input.old) (reading I.Input input.old input.new) result }
    ensures files { OnOk result (I.files input.new ≡ I.files input.old) }
{
    let Ok(len) = input.open(path) else {
        return Err(End::InputFault);
    };
    if len > MOST_LOGIN_BYTES as u64 {
        return Err(End::Limit(Limit::Login));
    }
    match read_part(alloc, 0, len as usize, input) {
        Ok(text) => Ok(text),
        Err(ReadError::Memory) => Err(End::NoMemory),
        Err(ReadError::Fault) => Err(End::InputFault),
        Err(ReadError::Short(place)) => Err(End::Short(place)),
        Err(ReadError::TooLong) => unreachable!(),
    }
}
