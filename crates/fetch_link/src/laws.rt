// Laws of what an article's bytes give, and of what is heard on one link among others.
ghost use Rattle.fetch_link.specs.Laws.{GivenFits, AllGivenFits, HeadIsARange, SilenceMovesHearing, LastByteMoves};
ghost use Rattle.fetch_link.specs.Verdict.{EndingIsVerdict};

/// Bytes of an article give nothing before its range is fixed, and then no more than the range has room for.
pub fn given_fits()
    ensures { GivenFits }
{}

/// The lines of an article give no more than the range that they fix has room for.
pub fn all_given_fits()
    ensures { AllGivenFits }
{}

/// The range that keyword lines fix begins at 1 or later, and ends within the file, which has at most 1 TiB.
pub fn head_is_a_range()
    ensures { HeadIsARange }
{}

/// Bytes at which nothing is whole, fixed or over change what was heard on their link alone.
pub fn silence_moves_hearing()
    ensures { SilenceMovesHearing }
{}

/// Where all but the last of some bytes are such, the last one is the only move.
pub fn last_byte_moves()
    ensures { LastByteMoves }
{}

/// How the block of an article ends is the verdict of the answer.
pub fn ending_is_verdict()
    ensures { EndingIsVerdict }
{}
