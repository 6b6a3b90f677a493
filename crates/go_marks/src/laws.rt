//! Rows as worked out by hand. No function here does anything.

ghost use Rattle.go_marks.specs.MarksRows.{MarksRows};

/// What a call reaches is told by signatures without tags, and what is started isn't called.
pub fn marks_rows()
    ensures rows { MarksRows }
{}
