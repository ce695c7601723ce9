// The laws of heads, message-ids and names of files.
ghost use Rattle.article_head.specs.Field.{NewsgroupsAreOne};
ghost use Rattle.article_head.specs.Head.{HeadIsFields};
ghost use Rattle.article_head.specs.OutName.{OutNamesDiffer};
ghost use Rattle.article_head.specs.PartId.{PartIdsAreValid, PartIdsDiffer};

/// The lines of a head are lines of header fields, and one empty line behind them.
pub fn head_lines_are_fields()
    ensures { HeadIsFields }
{}

/// Two parts of a file have two message-ids.
pub fn part_ids_differ()
    ensures { PartIdsDiffer }
{}

/// A list of newsgroups has one list of names.
pub fn newsgroups_are_one()
    ensures { NewsgroupsAreOne }
{}

/// The message-id of a part's article keeps to the syntax of RFC 5536, 3.1.3.
pub fn part_ids_are_valid()
    ensures { PartIdsAreValid }
{}

/// Two files of an index have two names to be written under, whatever their subjects.
pub fn out_names_differ()
    ensures { OutNamesDiffer }
{}
