// The laws of replies and dialogs.
ghost use Rattle.link_dialog.specs.Laws.{NoReplyBeginsAnother, ReadingIsSplit, ReadingIsGreatest, ReadingGoesOn, RepliesAreThoseOfTheEvents};

/// No reply is a proper prefix of another of its kind.
pub fn no_reply_begins_another()
    ensures { NoReplyBeginsAnother }
{}

/// The replies in some bytes are the split of them with the greatest number of replies.
pub fn greatest_number_of_replies()
    ensures split { ReadingIsSplit }
    ensures greatest { ReadingIsGreatest }
{}

/// With more bytes, and more replies awaited, what was read stays, and the rest is read on.
pub fn reading_goes_on()
    ensures { ReadingGoesOn }
{}

/// A dialog without a login has one list of replies, which its events determine.
pub fn one_list_of_replies()
    ensures { RepliesAreThoseOfTheEvents }
{}
