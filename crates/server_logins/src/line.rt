// A line of a login file.
ghost use Rattle.std.specs.Prelude.{◌≡◌};
ghost use Rattle.std.specs.Option.{option_map};
ghost use Rattle.server_logins.specs.LoginLine.{line_model, login_line_of};

use crate::cut::cut_at;
use crate::server::is_server;
use nntp_lines::{Login, LoginWord};

/// What a line says.
#[derive(Drop)]
pub(crate) struct LoginLine<'a> {
    /// The address of the server.
    pub(crate) server: &'a [u8],
    /// The login there.
    pub(crate) login: Login,
}

/// What a line says that has `HOST:PORT USER PASSWORD`, with one space between.
pub(crate) fn read_line(line: &[u8]) -> Option<LoginLine<'_>>
    ensures { option_map line_model result ≡ login_line_of line.now }
{
    let Some(first) = cut_at(line, b' ') else {
        return None;
    };
    if !is_server(first.front) {
        return None;
    }
    let Some(second) = cut_at(first.behind, b' ') else {
        return None;
    };
    let Some(user) = LoginWord::new(second.front) else {
        return None;
    };
    match LoginWord::new(second.behind) {
        Some(pass) => Some(LoginLine {
            server: first.front,
            login: Login { user, pass },
        }),
        None => None,
    }
}
