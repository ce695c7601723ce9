// The texts of help.

/// What a command takes, told in three pieces.
#[derive(Clone, Copy)]
pub(crate) struct CommandHelp {
    /// The word that asks for it.
    pub(crate) name: &'static str,
    /// How it is called.
    pub(crate) usage: &'static str,
    /// What it does.
    pub(crate) about: &'static str,
    /// Its keys, with their rules and what holds without them, in lines that begin with two blanks.
    pub(crate) keys: &'static str,
    /// The keys that have to be given.
    pub(crate) required: &'static [&'static str],
}

/// A page of help, in the pieces that it is printed in.
#[derive(Clone, Copy)]
pub(crate) struct Page {
    pub(crate) opening: &'static str,
    pub(crate) middle: &'static str,
    pub(crate) closing: &'static str,
}

/// The commands, in lines that begin with two blanks.
pub(crate) const COMMAND_LIST: &str = "  \
  encode   writes the yEnc body of a file, or of a part of it, to standard output
  decode   writes the bytes of a saved body to standard output
  check    reads the index of files in an NZB, and writes what it lists
  post     posts a file through a news server, and writes the NZB of it to standard output
  index    asks a news server for the overview of a newsgroup, and writes the NZB of its files to standard output
";

const ABOUT: &str = "\
usebin makes yEnc articles of files, posts them in Usenet newsgroups, finds them there, and makes files of articles.

usage: usebin COMMAND --KEY VALUE ..

commands:
";

const STATUSES: &str = "
usebin COMMAND --help says what a command takes, usebin --version which version this is.

exit status:
  0  done
  1  some part of a file was not posted
  2  a word is refused, and its number is told
  3  a file could not be opened or read
  4  the output could not be written
  5  no link to the server could be opened
  6  the input was read and is refused
  7  there was not enough memory
  8  the server refused to be sent an article, or to give an overview, and its code is told
  9  the link was over before an article was sent or the overview was heard, and why is told

The line of a status is followed by lines that explain it, each indented by two blanks. With USEBIN_HINTS=no in the environment
they are left out.
";

const VERSION: &str = "usebin 0.1.0\n";

const ENCODE: CommandHelp = CommandHelp {
    name: "encode",
    usage: "usage: usebin encode --input FILE [--name NAME] [--line N] [--part-size N] [--part N]\n",
    about: "
Writes the yEnc body of a part of FILE to standard output: a header line, a part line where there are several parts, the
data lines, and a trailer line with the CRC-32 of the part. Each line ends with CR LF. FILE is cut into parts from its
start, the last one shorter, and only the asked part is read.

",
    keys: "  \
  --input FILE    the file, of at most 1099511627776 bytes and 262144 parts
  --name NAME     the name in the header: 1 to 255 printable ASCII characters, with no space at either end. Without it
                  the part of the path behind its last slash is the name.
  --line N        how many characters a data line has before it is full, 64 to 997. Without it 128.
  --part-size N   how many bytes a part has, 1 to 16777216. Without it 16777216.
  --part N        which part, from 1. Without it 1.
",
    required: &["--input"],
};

const DECODE: CommandHelp = CommandHelp {
    name: "decode",
    usage: "usage: usebin decode --input FILE [--form file|wire]\n",
    about: "
Reads the yEnc body that was saved in FILE, and writes the bytes of the file, or of the part of it, to standard output.
Their place in the file goes to standard error as a line `range A-B of S`: from the offset A to B, from 1, of S bytes.
Where FILE is no body, or shows damage, nothing is written to standard output, and the first fault is told.

",
    keys: "  \
  --input FILE   the saved body, of at most 67108864 bytes. What stands before its header line and behind its trailer
                 line is passed over.
  --form FORM    how it was saved: `file`, as lines, each ended by LF or CR LF, or `wire`, as a news server's reply to
                 BODY came: its status line and the block behind it, with doubled dots. Without it `file`.
",
    required: &["--input"],
};

const CHECK: CommandHelp = CommandHelp {
    name: "check",
    usage: "usage: usebin check --nzb FILE\n",
    about: "
Reads the NZB in FILE, and writes three lines to standard output: how many files it lists, how many segments these have,
and how many bytes these are said to have.
Where FILE is no NZB, nothing is written to standard output, and the first reason is told, with its place: how many bytes
stand before it.

",
    keys: "  \
  --nzb FILE   the NZB, of at most 67108864 bytes, 9999 files and 262144 segments
",
    required: &["--nzb"],
};

const POST: CommandHelp = CommandHelp {
    name: "post",
    usage: "\
usage: usebin post --input FILE --server HOST:PORT --from FROM --group GROUPS --token TOKEN --domain DOMAIN
                   [--name NAME] [--comment TEXT] [--line N] [--part-size N] [--patience N] [--login FILE]
",
    about: "
Posts FILE as yEnc articles, one for each part, over one link to a news server, and then writes the NZB of all parts to
standard output. An article is sent once, whatever becomes of it. Each part that wasn't posted has a line on standard error:
`part I refused C` with the server's code, `part I unsure` where the article was sent, or some of it, and no answer came, and
`part I notsent`.

",
    keys: "  \
  --input FILE          the file, of at most 1099511627776 bytes and 262144 parts
  --server HOST:PORT    the news server
  --from FROM           who posts, as `me@example.org` or `Me <me@example.org>`: 1 to 200 printable ASCII characters
  --group GROUPS        the newsgroups: 1 to 10 names with commas between them
  --token TOKEN         what the message-ids begin with, which no other post may have: 1 to 64 letters, digits, `-` and `_`
  --domain DOMAIN       the domain of the message-ids: 1 to 64 letters, digits, `-` and dots
  --name NAME           the name of the file: 1 to 255 printable ASCII characters. Without it the part of the path behind its
                        last slash is the name.
  --comment TEXT        what the subjects begin with: at most 200 printable ASCII characters. Without it nothing.
  --line N              how many characters a data line has before it is full, 64 to 997. Without it 128.
  --part-size N         how many bytes a part has, 1 to 16777216. Without it 750000.
  --patience N          after how many quiet receives of 20 milliseconds each the server is given up, 1 to 100000. Without it
                        1500.
  --login FILE          a file of lines `HOST:PORT USER PASSWORD`. The line with the server's address, if there is one, says who
                        logs in there.
",
    required: &[
        "--input", "--server", "--from", "--group", "--token", "--domain",
    ],
};

const INDEX: CommandHelp = CommandHelp {
    name: "index",
    usage: "\
usage: usebin index --server HOST:PORT --group GROUP --first A --last B [--patience N] [--login FILE]
",
    about: "
Asks a news server for the overview of the articles A to B of GROUP, over one link, and writes an NZB of the files that
they are parts of to standard output. The articles of one author whose subjects differ in their last count alone, as in (1/5)
and (2/5), are the parts of one file. Of two articles with one number the first is kept.
How many lines of the overview were skipped, since they can't be read or have no count in their subject, goes to standard error
as a line `skipped N`.

",
    keys: "  \
  --server HOST:PORT    the news server
  --group GROUP         the newsgroup
  --first A             the first number, 1 to 9999999999999999
  --last B              the last number, at least A and at most 9999999 more
  --patience N          after how many quiet receives of 20 milliseconds each the server is given up, 1 to 100000. Without it
                        1500.
  --login FILE          a file of lines `HOST:PORT USER PASSWORD`. The line with the server's address, if there is one, says who
                        logs in there.
",
    required: &["--server", "--group", "--first", "--last"],
};

/// The help of the command that a word asks for.
pub(crate) fn command_help(word: &str) -> Option<CommandHelp> {
    match word {
        "encode" => Some(ENCODE),
        "decode" => Some(DECODE),
        "check" => Some(CHECK),
        "post" => Some(POST),
        "index" => Some(INDEX),
        _ => None,
    }
}

/// The page that the words ask for in place of a command, if they do.
pub(crate) fn help_for(words: &[String]) -> Option<Page> {
    let (first, rest) = words.split_first()?;
    match first.as_str() {
        "--help" => Some(Page {
            opening: ABOUT,
            middle: COMMAND_LIST,
            closing: STATUSES,
        }),
        "--version" => Some(Page {
            opening: VERSION,
            middle: "",
            closing: "",
        }),
        word => match rest {
            [second, ..] if second.as_str() == "--help" => command_page(word),
            _ => None,
        },
    }
}

fn command_page(word: &str) -> Option<Page> {
    let help = command_help(word)?;
    Some(Page {
        opening: help.usage,
        middle: help.about,
        closing: help.keys,
    })
}
