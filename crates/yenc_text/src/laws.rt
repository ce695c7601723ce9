// The laws of the text of a body.
ghost use Rattle.yenc_text.specs.Text.{EachHasText, TextOfThree};

/// Each part's bytes have the text of their data lines.
pub fn each_part_has_text()
    ensures { EachHasText }
{}

/// The text before the data lines, theirs and the text behind them are the text of the body.
pub fn text_of_three()
    ensures { TextOfThree }
{}
