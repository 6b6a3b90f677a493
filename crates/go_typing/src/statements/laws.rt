//! Laws of the definitions. No function here does anything.

ghost use Rattle.go_typing.specs.RowsAssign.{RowsAssign};
ghost use Rattle.go_typing.specs.RowsControl.{RowsControl};
ghost use Rattle.go_typing.specs.StatementsRowsCore.{RowsCore};
ghost use Rattle.go_typing.specs.RowsDeclare.{RowsDeclare};

/// Assignments and short declarations come out as worked out by hand.
pub fn rows_assign()
    ensures rows { RowsAssign }
{}

/// Declarations in functions come out as worked out by hand.
pub fn rows_declare()
    ensures rows { RowsDeclare }
{}

/// Conditions, loops, switches, branches and returns come out as worked out by hand.
pub fn rows_control()
    ensures rows { RowsControl }
{}

/// What statements become comes out as worked out by hand.
pub fn rows_core()
    ensures rows { RowsCore }
{}
