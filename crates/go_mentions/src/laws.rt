//! Definitions as worked out by hand. No function here does anything.

ghost use Rattle.go_mentions.specs.BoxedRows.{BoxedRows};

/// What a literal captures is boxed, and so is a variable whose address is taken, and no other.
pub fn boxed_rows()
    ensures rows { BoxedRows }
{}
