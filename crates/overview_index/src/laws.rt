// The laws of indexes of lines.
ghost use Rattle.overview_index.specs.Group.{OneIndexOfLines};

/// A list of lines has one index.
pub fn one_index_of_lines()
    ensures { OneIndexOfLines }
{}
