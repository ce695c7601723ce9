// The top call: all that the program does.
ghost use Rattle.std.specs.Prelude.{◌≡◌, ◌≢◌, ◌≤◌, ◌<◌, ◌↔◌, ◌⊎◌, map, string_bytes};
ghost use Rattle.io_traits.specs.Causes.{Rose};
ghost use Rattle.command_words.specs.CommandLine.{words_of, IsRefused};
ghost use Rattle.input_files.specs.Reading.{reading};
ghost use Rattle.run_ends.specs.Status.{status_of};
ghost use Rattle.run_ends.specs.declared.end.End.{End as Ends};
ghost use Rattle.usebin_cli.specs.Linked.{linked};
ghost use Rattle.usebin_cli.specs.Run.{EndsSo, IsInGrammar, IsOverLimit, IsStatusOf, Ran, ReadsNothing, UsesLinks};
ghost use Rattle.usebin_cli.specs.Steps.{Runs};
ghost use Rattle.usebin_cli.specs.Writing.{written, IsUntouched};
ghost use Rattle.limits.specs.declared.TheConstants.{LAST_MOMENT};

use crate::check::check;
use crate::decode::decode;
use crate::encode::encode;
use crate::ended::{Ended, say_end};
use crate::index::index;
use crate::post::post;
use command_words::{Command, read_words};
use io_traits::{Input, Links, Sink, Store};
use run_ends::{End, status};
use std::alloc::Global;

/// Does what the words ask for, and answers the status.
///
/// `words` are those behind the program's name. `moment` is the time in seconds of Unix time. No command makes use of `store`
/// yet, and only `post` and `index` of `links`.
///
/// | Status | Comes |
/// |---|---|
/// | 0 | the text was written whole, and of a file that was posted each part was taken |
/// | 1 | some part of a file wasn't posted, and the text was written whole |
/// | 2 | exactly where the words are refused |
/// | 3 | only where the count of faults of `input` rose |
/// | 4 | only where the count of faults of `out` rose |
/// | 5 | only where no link was opened, and the count of faults of `links` rose |
/// | 6 | exactly where a read gave no byte below the file's length, the file or its asked part goes past a limit, a text isn't in the grammar that is asked for, or an index would pass a limit |
/// | 7 | want of memory, at any moment after the words are read |
/// | 8 | exactly where the server refused to be sent an article, to choose the newsgroup or to give an overview, unless memory is wanting |
/// | 9 | exactly where the link was over before a byte of an article was sent, or before the last overview was heard |
#[allow(clippy::too_many_arguments)]
pub fn usebin<I: Input, T: Store, L: Links, O: Sink, E: Sink>(
    alloc: Global,
    words: &[String],
    input: &mut I,
    store: &mut T,
    links: &mut L,
    out: &mut O,
    err: &mut E,
    moment: u64,
) -> u8
    requires { moment ≤ LAST_MOMENT }

    // The run ended in some way: the status is that of this end, and what was read, said, heard and written, and the text
    // that `err` has got, are as the end says.
    ensures ends { (end : Ends) × (result ≡ status_of end) × Ran (words_of (map string_bytes words.now)) (I.files input.old) moment (reading I.Input input.old input.new)
        (linked L.Links links.old links.new) (written O.Sink out.old out.new) (written E.Sink err.old err.new) end }

    // 2: exactly where the words are refused, also where there is no memory.
    ensures refused { (result ≡ 2) ↔ IsRefused (words_of (map string_bytes words.now)) }

    // Where a call on the input failed, the status is 3, and where a write failed it is 4, or want of memory.
    ensures input_count { I.faults input.old < I.faults input.new → (result ≡ 3) ⊎ (result ≡ 7) }
    ensures output_count { O.faults out.old < O.faults out.new → (result ≡ 4) ⊎ (result ≡ 7) }

    // 6: where a read gave no byte below the file's length, and exactly where a file or what is asked of it goes past a limit. Where
    // the input is in the grammar of what is asked for, no other refusal of it comes.
    ensures in_grammar { IsInGrammar (words_of (map string_bytes words.now)) (I.files input.old) (I.current input.new) → result ≡ 6 → Rose (I.shorts input.old) (I.shorts input.new) }
    ensures short { I.shorts input.old < I.shorts input.new → (result ≡ 6) ⊎ (result ≡ 7) }
    ensures over_limit { IsOverLimit (words_of (map string_bytes words.now)) (I.current input.new) → result ≡ 6 }

    // No other status is answered, and but for 0, 1 and 4 nothing is written to `out`.
    ensures statuses { IsStatusOf (words_of (map string_bytes words.now)) result }
    ensures untouched { result ≢ 0 → result ≢ 1 → result ≢ 4 → IsUntouched (written O.Sink out.old out.new) }

    // The other objects are as they were, but for the links of a command that makes use of them, and the input of one that
    // reads something.
    ensures input { ReadsNothing (words_of (map string_bytes words.now)) → input.new ≡ input.old }
    ensures store { store.new ≡ store.old }
    ensures links { ¬ UsesLinks (words_of (map string_bytes words.now)) → links.new ≡ links.old }
{
    let ended = run(alloc, words, input, links, out, err, moment);
    say_end(&ended, err);
    status(&ended.end)
}

// Does what the words ask for, and answers how that ended. Its line is still to be said.
fn run<I: Input, L: Links, O: Sink, E: Sink>(
    alloc: Global,
    words: &[String],
    input: &mut I,
    links: &mut L,
    out: &mut O,
    err: &mut E,
    moment: u64,
) -> Ended
    requires { moment ≤ LAST_MOMENT }
    ensures runs { Runs (words_of (map string_bytes words.now)) (EndsSo (words_of (map string_bytes words.now)) (I.files input.old) moment (reading I.Input input.old input.new) (linked L.Links links.old links.new))
        (reading I.Input input.old input.new) (written O.Sink out.old out.new) (written E.Sink err.old err.new) result }
    ensures input { ReadsNothing (words_of (map string_bytes words.now)) → input.new ≡ input.old }
    ensures links { ¬ UsesLinks (words_of (map string_bytes words.now)) → links.new ≡ links.old }
{
    match read_words(words) {
        Err(number) => Ended {
            end: End::WordsRefused(number),
            is_told: true,
        },
        Ok(Command::Encode(asked)) => Ended {
            end: encode(alloc, asked, input, out),
            is_told: true,
        },
        Ok(Command::Decode(asked)) => decode(alloc, asked, input, out, err),
        Ok(Command::Check(asked)) => Ended {
            end: check(alloc, asked, input, out),
            is_told: true,
        },
        Ok(Command::Post(asked)) => post(alloc, asked, moment, input, links, out, err),
        Ok(Command::Index(asked)) => index(alloc, asked, input, links, out, err),
    }
}
