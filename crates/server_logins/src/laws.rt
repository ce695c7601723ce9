// The laws of login files.
ghost use Rattle.server_logins.specs.Logins.{LoginsAreOne, LoginsOrBroken};

/// The lines of a file have one list of logins.
pub fn logins_are_one()
    ensures { LoginsAreOne }
{}

/// The lines of a file have logins, or one of them is the first that breaks a rule, and not both.
pub fn logins_or_broken()
    ensures { LoginsOrBroken }
{}
