//! What is let go.
//!
//! A tree that dies by itself is taken apart in place, form by form. As a part of something else it
//! dies by one call. So all trees go through here, each in a list of its own.

use go_core::node::CoreExpr;

#[derive(Drop)]
struct Lost {
    _core: CoreExpr,
}

fn gone(_lost: Lost) {}

/// Lets an expression go.
pub fn gone_expr(core: CoreExpr) {
    gone(Lost { _core: core });
}
