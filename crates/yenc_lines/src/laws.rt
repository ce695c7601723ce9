// The laws of keyword lines.
ghost use Rattle.yenc_lines.specs.WrittenLines.{HeaderIsRead, PartLineIsRead, TrailerIsRead};

/// What is written as a keyword line is read again.
pub fn written_lines_are_read()
    ensures header { HeaderIsRead }
    ensures part_line { PartLineIsRead }
    ensures trailer { TrailerIsRead }
{}
