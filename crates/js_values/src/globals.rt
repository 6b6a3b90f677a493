//! Package variables: Go specification (as of Go 1.17), "Package initialization".

use crate::expr::expr;
use go_core::program::PackageVar;
use js_body::{Body, Operand};

/// Sets a package variable, and those that its initialiser sets too.
pub fn initialise(b: &mut Body<'_>, n: u64) {
    let globals = b.facts.program.globals.items.as_slice();
    let Some(first) = globals.get(n as usize) else {
        return;
    };
    let Some(e) = &first.initialiser else {
        return;
    };
    expr(b, e);
    let mut at: usize = 0;
    for i in n as usize..globals.len() {
        if !is_set_with(&globals[i], first) {
            break;
        }
        let o = b.value_at(at);
        set_global(b, i, &globals[i], o);
        at = at.saturating_add(1);
    }
    b.drop_to(0);
}

// Whether a variable is set by the initialiser of another one.
fn is_set_with(v: &PackageVar, first: &PackageVar) -> bool {
    v.package == first.package && v.first == first.number
}

fn set_global(b: &mut Body<'_>, n: usize, g: &PackageVar, o: Operand) {
    let number = if n < 4294967295 { n as u32 } else { 4294967295 };
    let x = b.pool.name_of(b"$g", number);
    if b.is_block(g.ty) {
        b.copy_over(x, o.e, g.ty);
    } else {
        b.pool.store_at(x, 0, o.e);
    }
}
