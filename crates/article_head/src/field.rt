// Whether texts may stand in the fields of a head.
ghost use Rattle.std.specs.Prelude.{◌≡◌, ◌↔◌, ◌==◌, IsTrue};
ghost use Rattle.std.specs.List.{count_by, list_all};
ghost use Rattle.nntp_lines.specs.Command.{is_printable};
ghost use Rattle.nntp_lines.specs.GroupName.{is_group_byte};
ghost use Rattle.article_head.specs.Field.{IsComment, IsFileName, IsFrom, IsNewsgroups, IsText, is_trimmed, is_word, names_of};

use nntp_lines::GroupName;

/// The room for a line of a head. A field line has at most 998 bytes (RFC 5536, 2.2).
pub(crate) const ROOM: usize = 998;

/// Whether a text may say who posts: 1 to 200 printable ASCII characters and spaces, with no space at either end.
pub fn is_from(text: &[u8]) -> bool
    ensures { IsTrue result ↔ IsFrom text.now }
{
    is_text(text, 1, 200)
}

/// Whether a text may stand in front of a subject: 0 to 200 printable ASCII characters and spaces, with no space at
/// either end.
pub fn is_comment(text: &[u8]) -> bool
    ensures { IsTrue result ↔ IsComment text.now }
{
    is_text(text, 0, 200)
}

/// Whether a subject may give a text as the name of a file: 1 to 255 printable ASCII characters and spaces, with no
/// space at either end.
pub fn is_file_name(text: &[u8]) -> bool
    ensures { IsTrue result ↔ IsFileName text.now }
{
    is_text(text, 1, 255)
}

/// Whether a text is a list of newsgroups (RFC 5536, 3.1.4): 1 to 10 names with a comma between two, at most 600 bytes.
#[tactic(auto, using(crate::proofs::Pieces::newsgroups_from_names, crate::proofs::Pieces::names_from_newsgroups))]
pub fn is_newsgroups(text: &[u8]) -> bool
    ensures { IsTrue result ↔ IsNewsgroups text.now }
{
    if text.len() > 600 {
        return false;
    }
    if commas_in(text) > 9 {
        return false;
    }
    are_names(text)
}

fn commas_in(text: &[u8]) -> usize
    ensures { result ≡ count_by (λ byte. byte == 44) text.now }
{
    let mut commas = 0;
    for byte in text {
        if *byte == b',' {
            commas += 1;
        }
    }
    commas
}

fn are_names(text: &[u8]) -> bool
    ensures { result ≡ list_all (is_word is_group_byte 200) (names_of text.now) }
{
    text.split(|byte| *byte == b',').all(|name| is_name(name))
}

fn is_name(name: &[u8]) -> bool
    ensures { result ≡ is_word is_group_byte 200 name.now }
{
    GroupName::new(name).is_some()
}

fn is_text(text: &[u8], least: usize, most: usize) -> bool
    ensures { IsTrue result ↔ IsText least most text.now }
{
    text.len() >= least && text.len() <= most && are_printable(text) && is_trimmed(text)
}

fn are_printable(text: &[u8]) -> bool
    ensures { result ≡ list_all is_printable text.now }
{
    text.iter().all(|byte| (32..=126).contains(byte))
}

fn is_trimmed(text: &[u8]) -> bool
    ensures { result ≡ is_trimmed text.now }
{
    if text.is_empty() {
        return true;
    }
    text[0] != b' ' && text[text.len() - 1] != b' '
}
