//! Laws of paths that are read: functions that do nothing, each with a law as its contract.
ghost use Rattle.text_programs.specs.PathPieces.{PathsArePieces, PiecesHaveNoZero};

/// The paths of an index are the pieces that it is read from: each line, or each piece that a zero byte ends.
pub fn paths_are_pieces()
    ensures { PathsArePieces }
{}

/// No piece that a zero byte ends has a zero byte. So each is a path, and only a failed read or allocation is an error.
pub fn pieces_have_no_zero()
    ensures { PiecesHaveNoZero }
{}
