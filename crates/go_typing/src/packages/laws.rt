//! Laws of the definitions. No function here does anything.

ghost use Rattle.go_typing.specs.PackagesRowsCore.{RowsCore};
ghost use Rattle.go_typing.specs.RowsTold.{RowsTold};

/// What is told of small packages comes out as worked out by hand.
pub fn rows_told()
    ensures rows { RowsTold }
{}

/// The programs that small packages are come out as worked out by hand.
pub fn rows_core()
    ensures rows { RowsCore }
{}
