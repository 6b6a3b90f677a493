//! What stands at the script's top beside functions: what is known of dynamic types, run-time panics and
//! package variables.

use go_core::program::{MethodRow, PackageVar};
use go_type::types::{GoType, TypeId};
use js_body::Body;
use js_facts::held::level;
use js_facts::keys::method_key;
use js_pool::{ExprId, Name};
use js_values::interfaces::dynamic;

/// A number of the program as one in a name.
pub fn name_number(n: u64) -> u32 {
    if n < 4294967295 { n as u32 } else { 4294967295 }
}

// ---- dynamic types

/// Adds what is known of the types of values in interface values: `$yK` of the type K has its
/// description, its methods, whether its values can be compared, and a predeclared type.
pub fn add_dynamic_types(b: &mut Body<'_>) {
    for t in 0..b.table().len() {
        let t = TypeId(t);
        if b.facts.is_dynamic(t) {
            let d = b.description(t);
            let methods = b.pool.dictionary();
            let compares = is_comparable(b, t);
            let compares = b.pool.truth(compares);
            let none = b.pool.null();
            let e = b.pool.array_of(&[d, methods, compares, none]);
            b.pool.global(Name::Numbered(b"$y", name_number(t.0)), e);
        }
    }
}

fn is_comparable(b: &Body<'_>, t: TypeId) -> bool {
    let table = b.table();
    t.0 < table.len() && table.is_finite(t) && table.comparable(t)
}

/// The predeclared type of a named boolean, integer or string type, where both are dynamic types.
pub fn predeclared(b: &Body<'_>, t: TypeId) -> Option<TypeId> {
    let plain = b.facts.under(t);
    if plain.0 == t.0 || !b.facts.is_dynamic(plain) {
        return None;
    }
    match level(b.table(), t) {
        Some(GoType::Bool) | Some(GoType::Str) | Some(GoType::Int(_)) => Some(plain),
        _ => None,
    }
}

/// Notes the predeclared type of a named type.
pub fn fill_predeclared(b: &mut Body<'_>, t: TypeId, plain: TypeId) {
    let y = dynamic(b, t);
    let e = dynamic(b, plain);
    b.pool.store_at(y, 3, e);
}

/// Notes the method of a row with this number among those of its type.
pub fn fill_method(b: &mut Body<'_>, number: u32, row: &MethodRow) {
    let key = row_text(b, row);
    let y = dynamic(b, row.ty);
    let methods = b.pool.at(y, 1);
    let r = b.pool.name_of(b"$r", number);
    b.pool.store(methods, key, r);
}

fn row_text(b: &mut Body<'_>, row: &MethodRow) -> ExprId {
    let Some(f) = b.facts.func(row.func) else {
        return b.pool.text(b"$");
    };
    match method_key(b.pool.alloc, &row.name, &row.package, &f.sig) {
        Ok(key) => b.pool.text(key.as_bytes()),
        Err(_) => {
            b.pool.failed = true;
            b.pool.null()
        }
    }
}

// ---- run-time panics

// The text of the run-time panic with a number; that of an index is made where it happens.
fn panic_text(n: u32) -> &'static [u8] {
    match n {
        1 => b"runtime error: integer divide by zero",
        2 => b"runtime error: invalid memory address or nil pointer dereference",
        4 => b"runtime error: slice bounds out of range",
        5 => b"runtime error: negative shift amount",
        6 => b"runtime error: size out of range",
        7 => b"interface conversion: wrong dynamic type",
        8 => b"runtime error: comparing uncomparable type",
        9 => b"send on closed channel",
        10 => b"close of closed channel",
        11 => b"close of nil channel",
        12 => b"assignment to entry in nil map",
        _ => b"runtime error: index out of range",
    }
}

/// Adds the values of run-time panics: `$pN` for that with the number N.
pub fn add_panics(b: &mut Body<'_>) {
    let hidden = b.facts.program.hidden;
    for n in 1..13 {
        let y = dynamic(b, hidden);
        let told = b.pool.text(panic_text(n));
        let e = b.pool.pair(y, told);
        b.pool.global(Name::Numbered(b"$p", n), e);
    }
}

// ---- package variables

/// Adds the package variables at zero: `$gN` is an array with the value, or that of a struct or an array.
pub fn add_globals(b: &mut Body<'_>) {
    let globals = b.facts.program.globals.items.as_slice();
    let mut n: u32 = 0;
    for g in globals {
        add_global(b, n, g);
        n = n.saturating_add(1);
    }
}

fn add_global(b: &mut Body<'_>, n: u32, g: &PackageVar) {
    let zero = b.zero(g.ty);
    let e = if b.is_block(g.ty) {
        zero
    } else {
        b.pool.single(zero)
    };
    b.pool.global(Name::Numbered(b"$g", n), e);
}
