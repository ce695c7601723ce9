// The laws of blocks.
ghost use Rattle.dot_blocks.specs.BlockReading.{ReadsEachBlock};
ghost use Rattle.dot_blocks.specs.Laws.{NoBlockBeginsAnother, OneListOfLines, StuffedIsBlock, BlockOrHeard};

/// No block is a proper prefix of a block.
pub fn no_block_begins_another()
    ensures { NoBlockBeginsAnother }
{}

/// A block has one list of lines.
pub fn one_list_of_lines()
    ensures { OneListOfLines }
{}

/// What is made of lines by stuffing is a block of these lines.
pub fn stuffed_is_block()
    ensures { StuffedIsBlock }
{}

/// Bytes begin with a block, or they are whole lines and what has come of the next one, which then are the only ones.
pub fn block_or_heard()
    ensures { BlockOrHeard }
{}

/// The plain reading of a block on lists reads each block, and nothing else.
pub fn each_block_is_read()
    ensures { ReadsEachBlock }
{}
