// The laws of posted files.
ghost use Rattle.poster.specs.Article.{ArticlesHoldNoLineEnd, OneListOfArticles};
ghost use Rattle.poster.specs.Plan.{IdsDiffer, PartsAreTheFile, PartsHoldEachOffset};

/// Two parts of a plan have two message-ids.
pub fn ids_differ()
    ensures { IdsDiffer }
{}

/// Each offset of a file stands in exactly one part of its plan.
pub fn parts_hold_each_offset()
    ensures { PartsHoldEachOffset }
{}

/// The bytes of a file's parts, one after the other, are the file.
pub fn parts_are_the_file()
    ensures { PartsAreTheFile }
{}

/// No line of an article holds NUL, CR or LF, as RFC 3977, 3.1.1, demands of a block.
pub fn articles_hold_no_line_end()
    ensures { ArticlesHoldNoLineEnd }
{}

/// A file has one list of articles.
pub fn one_list_of_articles()
    ensures { OneListOfArticles }
{}
