// The laws of the words.
ghost use Rattle.command_words.specs.Servers.{ServerWordsAreRead};

/// A value of `--server` names a server exactly where it is `HOST:PORT`, then `*` and how many links or nothing, then `@` and
/// a level or nothing.
pub fn server_words_are_read()
    ensures { ServerWordsAreRead }
{}
