// The laws of lines that a server sends.
ghost use Rattle.nntp_lines.specs.GroupReply.{GroupLineIsRead};
ghost use Rattle.nntp_lines.specs.StatusLine.{StatusLineIsRead, StatusFaultIsTold};

/// A line is a status line with one code, or it is none for one reason.
pub fn status_or_fault()
    ensures code { StatusLineIsRead }
    ensures fault { StatusFaultIsTold }
{}

/// A line that answers `GROUP` says one thing of the newsgroup.
pub fn group_line_is_read()
    ensures { GroupLineIsRead }
{}
