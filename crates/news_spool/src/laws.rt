// The laws of what a server in memory says.
ghost use Rattle.news_spool.specs.Laws.{GroupLineSaysCounts, OverviewIsOneLine};

/// The line by which a newsgroup is chosen says the numbers to a client.
pub fn group_line_says_counts()
    ensures { GroupLineSaysCounts }
{}

/// The line of an article in an overview is one line.
pub fn overview_is_one_line()
    ensures { OverviewIsOneLine }
{}
