// Laws of the files of a fetch and of what their parts gave.
ghost use Rattle.fetch_files.specs.Laws.{AcceptFills, ClaimFills, ClearedHasRoom, FilesAreFinal, FilesAreMade, FirstHasRoom, FreeGaveNothing, PartIsCleared, PieceHasRoom, PieceIsWritten, ReleaseFills, ShelfIsFinal};

/// Files that were just made hold what their parts gave, where these gave nothing.
pub fn files_are_made()
    ensures { FilesAreMade }
{}

/// Before a range was claimed, what the parts gave has room, where they gave nothing.
pub fn first_has_room()
    ensures { FirstHasRoom }
{}

/// After a part gave one piece more, which its range has room for, what the parts gave still has room.
pub fn piece_has_room()
    ensures { PieceHasRoom }
{}

/// Where a piece was written behind what its part gave before, the files hold what the parts gave, with that piece.
pub fn piece_is_written()
    ensures { PieceIsWritten }
{}

/// After a part took back what it gave, what the parts gave still has room, also after its range was released.
pub fn cleared_has_room()
    ensures { ClearedHasRoom }
{}

/// Where zeros were written over all that a part gave, the files hold what the parts gave, and of that part nothing, also after
/// its range was released.
pub fn part_is_cleared()
    ensures { PartIsCleared }
{}

/// A segment without a range gave nothing.
pub fn free_gave_nothing()
    ensures { FreeGaveNothing }
{}

/// What is true of the files stays true where a range is claimed for a segment that gave nothing.
pub fn claim_fills()
    ensures { ClaimFills }
{}

/// What is true of the files stays true where a held range is accepted.
pub fn accept_fills()
    ensures { AcceptFills }
{}

/// What is true of the files stays true where the range of a segment that gave nothing is released.
pub fn release_fills()
    ensures { ReleaseFills }
{}

/// Where no range is held and each accepted part gave all its bytes, a file that got its size is as it is at the end.
pub fn files_are_final()
    ensures { FilesAreFinal }
{}

/// The same of all files, after each got its size.
pub fn shelf_is_final()
    ensures { ShelfIsFinal }
{}
