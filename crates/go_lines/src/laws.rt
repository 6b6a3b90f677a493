//! Laws of the definitions. No function here does anything.

ghost use Rattle.go_lines.specs.Lines.{PlainIsRight, PlainOnlyPrints, PlainPrints};

/// Of a plain package nothing is told, its program's `main` prints the texts, each on a line of its own,
/// and the program does nothing else.
pub fn plain()
    ensures right { PlainIsRight }
    ensures prints { PlainPrints }
    ensures alone { PlainOnlyPrints }
{}
