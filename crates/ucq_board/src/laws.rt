//! Laws of the rule that a board keeps at every moment, each the contract of a function that does nothing.

ghost use Rattle.ucq_board.specs.Laws.{CursorIsSmall, DrawnBelow, DrawnOnce, FinishedOnce, MarksTell, StopTells};

/// No row is drawn twice by one seat, or by two.
pub fn drawn_once()
    ensures { DrawnOnce }
{}

/// The drawn rows are those below the cursor.
pub fn drawn_below()
    ensures { DrawnBelow }
{}

/// What a seat has finished it has drawn. It has finished it once, and no other seat has.
pub fn finished_once()
    ensures { FinishedOnce }
{}

/// The word of a row says whether it is finished.
pub fn marks_tell()
    ensures { MarksTell }
{}

/// The stop word says whether stop was called.
pub fn stop_tells()
    ensures { StopTells }
{}

/// The cursor is at most 65,664, so no step of it wraps.
pub fn cursor_is_small()
    ensures { CursorIsSmall }
{}
