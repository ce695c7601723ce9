// The logins of a file.
ghost use Rattle.std.specs.Prelude.{◌≡◌, [], MatchResult};
ghost use Rattle.std.specs.Option.{option_copied};
ghost use Rattle.server_logins.specs.Logins.{AddsLine, AreLogins, FindsLogin, AreNoLogins, login_in};
ghost use Rattle.lists.specs.Text.{text_lines};

use crate::line::read_line;
use lists::{Bytes, Lines, List, Memory, split_text};
use nntp_lines::Login;
use std::alloc::Global;
use std::marker::Model;

/// A server and the login there. The password is never printed.
#[derive(Drop)]
pub struct ServerLogin {
    /// The address of the server, `HOST:PORT`.
    pub server: Bytes,
    /// The user and the password.
    pub login: Login,
}

/// Logins at servers. Contracts see the list of them, in the order of their lines. The passwords are never printed.
#[derive(Drop)]
pub struct Logins {
    entries: List<ServerLogin>,
}

impl Model for Logins {
    ghost use Rattle.std.specs.Prelude.{List};
    ghost use Rattle.server_logins.specs.declared.logins.ServerLogin.{ServerLogin};

    ghost Value = { List ServerLogin };

    ghost view = { λ logins. logins.entries };
}

/// Why a text gives no logins.
#[derive(Clone, Copy, Debug, PartialEq, Eq)]
pub enum LoginError {
    /// No memory was left.
    Memory,
    /// The line of this number, from 1, is the first that breaks a rule.
    Broken(u64),
}

impl Logins {
    /// The login at a server, if it has one.
    pub fn login_for(&self, server: &[u8]) -> Option<&Login>
        ensures { FindsLogin self.now server.now (option_copied result) }
    {
        find(self.entries.as_slice(), server)
    }

    // Takes what a line says behind the lines before it. The line of this number breaks a rule where no line can say what it
    // says, or where a line before it has its server.
    fn add_line(&mut self, alloc: Global, line: &[u8], number: u64) -> Result<(), LoginError>
        ensures { AddsLine self.old line.now number self.new result }
    {
        if line.is_empty() {
            return Ok(());
        }
        let Some(said) = read_line(line) else {
            return Err(LoginError::Broken(number));
        };
        if find(self.entries.as_slice(), said.server).is_some() {
            return Err(LoginError::Broken(number));
        }
        let mut server = Bytes::new(alloc);
        if server.extend(said.server).is_err() {
            return Err(LoginError::Memory);
        }
        let entry = ServerLogin {
            server,
            login: said.login,
        };
        match self.entries.push(entry) {
            Ok(()) => Ok(()),
            Err(Memory) => Err(LoginError::Memory),
        }
    }
}

/// Reads the logins of a file. Each line, as a saved text has them, is empty or `HOST:PORT USER PASSWORD` with one space
/// between, where the user and the password are 1 to 200 printable ASCII characters without a space, and no line has the
/// server of an earlier one. The first line that breaks a rule is told.
pub fn read_logins(alloc: Global, text: &[u8]) -> Result<Logins, LoginError>
    ensures { MatchResult result (AreLogins (text_lines text.now)) (AreNoLogins (text_lines text.now)) }
{
    match split_text(alloc, text) {
        Ok(lines) => read_lines(alloc, &lines),
        Err(Memory) => Err(LoginError::Memory),
    }
}

fn read_lines(alloc: Global, lines: &Lines) -> Result<Logins, LoginError>
    ensures { MatchResult result (AreLogins lines.now) (AreNoLogins lines.now) }
{
    let mut logins = Logins {
        entries: List::new(alloc),
    };
    for at in 0..lines.len() {
        if let Err(error) = logins.add_line(alloc, lines.line(at), at as u64 + 1) {
            return Err(error);
        }
    }
    Ok(logins)
}

// The login at a server among these.
fn find<'a>(entries: &'a [ServerLogin], server: &[u8]) -> Option<&'a Login>
    ensures { option_copied result ≡ login_in server.now entries.now }
{
    for entry in entries {
        if entry.server.as_slice() == server {
            return Some(&entry.login);
        }
    }
    None
}
