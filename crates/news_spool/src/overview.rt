// The overview of articles.
ghost use Rattle.std.specs.Prelude.{◌≡◌, ◌≤◌, ◌<◌, ◌+◌, ◌^◌, [], ◌∷◌, ◌++◌, length, position, OnOk};
ghost use Rattle.std.specs.List.{position_or_len};
ghost use Rattle.dot_blocks.specs.Blocks.{stuffed};
ghost use Rattle.held_articles.specs.Articles.{in_group};
ghost use Rattle.news_spool.specs.Overview.{field_text, is_control, lines_reply, overview_of, overviews, overviews_from, spaced};

use crate::owed::Owed;
use crate::range::NumberRange;
use crate::reply::Reply;
use held_articles::{Article, field_of};
use lists::{Lines, Memory};

// Appends the overview of the articles of a newsgroup that are in a range, or says that there are none.
pub(crate) fn append_overviews(
    name: &[u8],
    range: NumberRange,
    date: &[u8],
    articles: &[Article],
    out: &mut Owed,
) -> Result<(), Memory>
    ensures { OnOk result (out.new ≡ out.old ++ lines_reply (overviews name.now range date.now articles.now)) }
{
    let (start, end) = range.places(articles.len());
    let shown = &articles[start..end];
    match first_in(name, shown) {
        None => out.say(Reply::NoneInRange),
        Some(at) => {
            out.say(Reply::Follows)?;
            let number = (start + at) as u64 + 1;
            append_lines(name, number, date, &shown[at..], out)?;
            out.extend(b".\r\n")
        }
    }
}

// The place of the first article that is in a newsgroup.
fn first_in(name: &[u8], articles: &[Article]) -> Option<usize>
    ensures { result ≡ position (λ article. in_group name.now article) articles.now }
{
    articles.iter().position(|article| article.is_in(name))
}

// Appends the lines of the articles of a newsgroup, where the first of all has this number. With the dot behind them they
// are a block.
fn append_lines(
    name: &[u8],
    number: u64,
    date: &[u8],
    articles: &[Article],
    out: &mut Owed,
) -> Result<(), Memory>
    requires some { 0 < number }
    requires fit { number + length articles.now < 2 ^ 64 }
    ensures { OnOk result (out.new ++ stuffed [] ≡ out.old ++ stuffed (overviews_from number name.now date.now articles.now)) }
{
    for (i, article) in articles.iter().enumerate() {
        if !article.is_in(name) {
            continue;
        }
        append_overview(number + i as u64, article, date, out)?;
        out.extend(b"\r\n")?;
    }
    Ok(())
}

// Appends the line of an article, without its CRLF.
#[tactic(auto, unfolding(crate::specs::Overview::overview_of))]
fn append_overview(
    number: u64,
    article: &Article,
    date: &[u8],
    out: &mut Owed,
) -> Result<(), Memory>
    ensures { OnOk result (out.new ≡ out.old ++ overview_of number article.now date.now) }
{
    let octets = article.octets()?;
    out.extend_number(number)?;
    append_field(b"Subject: ", &article.head, out)?;
    append_field(b"From: ", &article.head, out)?;
    out.extend(b"\t")?;
    out.extend(date)?;
    out.extend(b"\t<")?;
    out.extend(article.id.as_slice())?;
    out.extend(b">\t\t")?;
    out.extend_number(octets)?;
    out.extend(b"\t")?;
    out.extend_number(article.body.as_lines().len() as u64)?;
    Ok(())
}

// Appends a TAB, and what a field says, if the head has it.
fn append_field(name: &[u8], head: &Lines, out: &mut Owed) -> Result<(), Memory>
    ensures { OnOk result (out.new ≡ out.old ++ 9 ∷ field_text name.now head.now) }
{
    out.extend(b"\t")?;
    match field_of(name, head) {
        Some(text) => append_spaced(text, out),
        None => Ok(()),
    }
}

// Appends a text with a space for each control byte. What stands between these goes on whole.
fn append_spaced(text: &[u8], out: &mut Owed) -> Result<(), Memory>
    ensures { OnOk result (out.new ≡ out.old ++ spaced text.now) }
{
    let mut at = 0;
    while at < text.len() {
        let end = at + plain_len(&text[at..]);
        out.extend(&text[at..end])?;
        if end == text.len() {
            return Ok(());
        }
        out.extend(b" ")?;
        at = end + 1;
    }
    Ok(())
}

// How many bytes stand before the first control byte, or all.
fn plain_len(text: &[u8]) -> usize
    ensures len { result ≡ position_or_len is_control text.now }
    ensures inside { result ≤ length text.now }
{
    for (at, byte) in text.iter().enumerate() {
        if *byte < b' ' {
            return at;
        }
    }
    text.len()
}
