// Who logs in at a server.

use crate::LoginWord;

/// The name of a user and the password, with which a link is logged in (RFC 4643, 2.3).
#[derive(Clone, Debug, Drop)]
pub struct Login {
    /// The name of the user.
    pub user: LoginWord,
    /// The password.
    pub pass: LoginWord,
}
