// Articles that are asked for by their message-ids.
ghost use Rattle.std.specs.Prelude.{◌≡◌, ◌++◌, OnOk};
ghost use Rattle.std.specs.Option.{option_copied};
ghost use Rattle.news_spool.specs.Bodies.{body_reply, found_text, stat_reply};

use crate::owed::Owed;
use crate::reply::Reply;
use held_articles::Article;
use lists::Memory;
use nntp_lines::MessageId;

// Appends the body of an article, or says that there is none.
pub(crate) fn append_body(article: Option<&Article>, out: &mut Owed) -> Result<(), Memory>
    ensures { OnOk result (out.new ≡ out.old ++ body_reply (option_copied article.entry)) }
{
    match article {
        None => out.say(Reply::NoneWithId),
        Some(article) => {
            append_found(b"222", &article.id, out)?;
            out.extend_block(&article.body)
        }
    }
}

// Says whether there is an article.
pub(crate) fn append_stat(article: Option<&Article>, out: &mut Owed) -> Result<(), Memory>
    ensures { OnOk result (out.new ≡ out.old ++ stat_reply (option_copied article.entry)) }
{
    match article {
        None => out.say(Reply::NoneWithId),
        Some(article) => append_found(b"223", &article.id, out),
    }
}

// Appends a status line with this code and this message-id.
fn append_found(code: &[u8], id: &MessageId, out: &mut Owed) -> Result<(), Memory>
    ensures { OnOk result (out.new ≡ out.old ++ found_text code.now id.now) }
{
    out.extend(code)?;
    out.extend(b" 0 <")?;
    out.extend(id.as_slice())?;
    out.extend(b">\r\n")
}
