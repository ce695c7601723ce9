// Laws over the definitions.
ghost use Rattle.fetch_trace.specs.Answered.{FrontsArePosted};
ghost use Rattle.fetch_trace.specs.Headline.{Completeness, CompletenessAnew};
ghost use Rattle.fetch_trace.specs.HeardOn.{LinksAreTold};
ghost use Rattle.fetch_trace.specs.LawfulReading.{EndIsComputed, LawfulIsComputed};
ghost use Rattle.fetch_trace.specs.LawfulLaws.{EachIsAskedOnce, EndsOnce, LawfulIsBusy, NothingFollowsOver, QuietsAreFew};
ghost use Rattle.fetch_trace.specs.OneLink.{OneEventLeavesOthers, OneLinkMoves};
ghost use Rattle.fetch_trace.specs.PostedFile.{CutIsCompleted, CutIsPosted};
ghost use Rattle.fetch_trace.specs.Laws.{OneEventMoves, ByteIsACall, PieceIsACall, QuietIsACall, EndIsACall, LinksAreValid, RangesAreHeld};
ghost use Rattle.fetch_trace.specs.Turns.{TurnsAreComputed};

/// One more event moves what a moment says once more.
pub fn one_event_moves()
    ensures { OneEventMoves }
{}

/// A byte that is heard moves the states of the segments as one call of the core does: none, `greeted`, `reply` or `over`.
pub fn byte_is_a_call()
    ensures { ByteIsACall }
{}

/// A piece that is sent moves them as no call does, or as `next` does where it begins a command.
pub fn piece_is_a_call()
    ensures { PieceIsACall }
{}

/// A receive that finds nothing moves them as no call does, or as `over` does where it is one too many.
pub fn quiet_is_a_call()
    ensures { QuietIsACall }
{}

/// The end of a link moves them as `over` does.
pub fn end_is_a_call()
    ensures { EndIsACall }
{}

/// At each moment it is known of each link which kinds of replies are awaited.
pub fn links_are_valid()
    ensures { LinksAreValid }
{}

/// At each moment the ranges that are held are those of unfinished articles past their range moment on links that aren't over.
pub fn ranges_are_held()
    ensures { RangesAreHeld }
{}

/// A byte heard on one link leaves each other link as it is, each segment that has arrived, is exhausted or is outstanding
/// elsewhere, and each range but those of articles of that link.
pub fn one_link_moves()
    ensures { OneLinkMoves }
{}

/// The headline: where every answer to a segment of a posted file is that of the part's posted article or says that it is absent,
/// the file is complete exactly where every part's article was heard whole, and what is rebuilt is then the posted file; otherwise
/// exactly the parts that weren't heard whole aren't given, and exactly the offsets in their ranges are missing.
pub fn headline()
    ensures { CompletenessAnew }
{}

/// The headline of a fetch that goes on from kept parts: such a part counts as heard whole, where its range is that of its article
/// and the file that was there has the posted bytes in it.
pub fn resumed_headline()
    ensures { Completeness }
{}

/// The bodies that a writer makes of a file's parts are those of a posted file.
pub fn cut_is_posted()
    ensures { CutIsPosted }
{}

/// The headline of a file that a poster cut into parts, where a segment stands for each part.
pub fn cut_is_completed()
    ensures { CutIsCompleted }
{}

/// What the headline asks of an article that isn't whole holds where what was heard of it goes on to the posted one.
pub fn fronts_are_posted()
    ensures { FrontsArePosted }
{}

/// In a lawful trace the replies that are carried of a link, and why it is over, are those that its own events say, where the
/// messages said on it have one BODY for each segment that was asked.
pub fn links_are_told()
    ensures { LinksAreTold }
{}

/// A trace is lawful exactly where the plain program computes that it is.
pub fn lawful_is_computed()
    ensures { LawfulIsComputed }
{}

/// And it is at its end exactly where that is computed.
pub fn end_is_computed()
    ensures { EndIsComputed }
{}

/// The receives of a trace go round its links exactly where that is computed.
pub fn turns_are_computed()
    ensures { TurnsAreComputed }
{}

/// So does a whole event: a piece that is heard or sent, a receive that finds nothing, an end.
pub fn one_event_leaves_others()
    ensures { OneEventLeavesOthers }
{}

/// Each link asks a segment at most once.
pub fn each_is_asked_once()
    ensures { EachIsAskedOnce }
{}

/// In a lawful trace no link has a segment to ask for just before a receive: the pipelines are full.
pub fn lawful_is_busy()
    ensures { LawfulIsBusy }
{}

/// In a lawful trace no more quiet receives than the patience follow each other on a link.
pub fn quiets_are_few()
    ensures { QuietsAreFew }
{}

/// In a lawful trace nothing is told on a link that is over.
pub fn nothing_follows_over()
    ensures { NothingFollowsOver }
{}

/// In a lawful trace a link ends at most once, and nothing is told on it afterwards.
pub fn ends_once()
    ensures { EndsOnce }
{}
