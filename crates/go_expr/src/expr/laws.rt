//! Laws of the definitions. No function here does anything.

ghost use Rattle.go_expr.specs.Typed.{ListsFaults};

/// The list of an expression's faults has exactly those of its faulty nodes and of the place that wants
/// its value.
pub fn lists_faults()
    ensures exact { ListsFaults }
{}
