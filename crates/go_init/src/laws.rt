//! Rows as worked out by hand. No function here does anything.

ghost use Rattle.go_init.specs.OrderRows.{OrderRows};

/// A variable waits for those that it refers to, and one that leads to itself has no order.
pub fn order_rows()
    ensures rows { OrderRows }
{}
