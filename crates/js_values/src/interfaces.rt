//! Interface values: Go specification (as of Go 1.17), "Interface types", "Type assertions". An interface
//! value is an array of what is known of its dynamic type, `$yK`, and of its value; nil is null. Of a type
//! are known its description, its methods, whether values can be compared, and a predeclared type.

use gj_base::Text;
use go_type::types::{MethodSpec, Sig, TypeId};
use js_body::{Body, Operand};
use js_facts::Held;
use js_facts::held::methods;
use js_facts::keys::method_key;
use js_pool::ExprId;

/// So many methods are asked for in one expression.
const METHODS: usize = 32;

/// What is known of a type stands at the top.
pub fn dynamic(b: &mut Body<'_>, t: TypeId) -> ExprId {
    let n = if t.0 < 4294967295 {
        t.0 as u32
    } else {
        4294967295
    };
    b.pool.name_of(b"$y", n)
}

/// An interface value of the last value, which is of a type.
pub fn wrap(b: &mut Body<'_>, from: TypeId) {
    let x = b.pop();
    let y = dynamic(b, from);
    let e = b.pool.pair(y, x.e);
    b.push(e);
}

// ---- methods

/// The methods of an interface value's dynamic type.
pub fn methods_of(b: &mut Body<'_>, x: ExprId) -> ExprId {
    let y = b.pool.at(x, 0);
    b.pool.at(y, 1)
}

/// The text under which a method of an interface type is found.
pub fn method_text(b: &mut Body<'_>, t: TypeId, name: &Text, package: &Text) -> ExprId {
    match b.facts.method_sig(t, name, package) {
        Some(sig) => key_text(b, name, package, sig),
        None => b.pool.text(b"$"),
    }
}

fn key_text(b: &mut Body<'_>, name: &Text, package: &Text, sig: &Sig) -> ExprId {
    match method_key(b.pool.alloc, name, package, sig) {
        Ok(key) => b.pool.text(key.as_bytes()),
        Err(_) => {
            b.pool.failed = true;
            b.pool.null()
        }
    }
}

// ---- assertions

// The last value becomes an interface value, and whether its dynamic type is this or implements it.
fn test_type(b: &mut Body<'_>, t: TypeId) {
    let x = b.last();
    let none = b.pool.null();
    let there = b.pool.different(x.e, none);
    if let Held::Interface = b.held(t) {
        return implements(b, t, x.e, there);
    }
    let found = b.pool.at(x.e, 0);
    let y = dynamic(b, t);
    let found = b.pool.same(found, y);
    let e = b.pool.both(there, found);
    b.push(e);
}

// A long list of methods is asked for piece by piece.
fn implements(b: &mut Body<'_>, t: TypeId, x: ExprId, there: ExprId) {
    b.push(there);
    let specs = methods(b.table(), t);
    let mut n: usize = 0;
    let mut test = b.last().e;
    for m in specs {
        let has = has_method(b, x, m);
        test = b.pool.both(test, has);
        n = n.saturating_add(1);
        if n % METHODS == 0 {
            test = again(b, test);
        }
    }
    if n % METHODS != 0 {
        again(b, test);
    }
}

fn again(b: &mut Body<'_>, test: ExprId) -> ExprId {
    b.pop();
    b.push(test);
    b.last().e
}

fn has_method(b: &mut Body<'_>, x: ExprId, m: &MethodSpec) -> ExprId {
    let key = key_text(b, &m.name, &m.package, &m.sig);
    let methods = methods_of(b, x);
    b.pool.is_key(key, methods)
}

// The value of an interface value as one of a type.
fn asserted(b: &mut Body<'_>, x: Operand, t: TypeId) -> ExprId {
    if let Held::Interface = b.held(t) {
        return x.e;
    }
    let value = b.pool.at(x.e, 1);
    b.own(value, t)
}

/// The value of a type in the last value; also whether it is of that type.
pub fn assert_type(b: &mut Body<'_>, t: TypeId, with_ok: bool) {
    let x = b.last();
    let at = b.depth().saturating_sub(1);
    test_type(b, t);
    let ok = b.last();
    let value = asserted(b, x, t);
    if with_ok {
        let zero = b.zero(t);
        let e = b.pool.choice(ok.e, value, zero);
        b.set_value(at, e);
        return;
    }
    b.pop();
    let test = b.pool.not(ok.e);
    b.panic_if(test, 7);
    b.set_value(at, value);
}

/// A dynamic type that is a named boolean, integer or string becomes the predeclared one.
pub fn basic(b: &mut Body<'_>) {
    let x = b.pop();
    let none = b.pool.null();
    let there = b.pool.different(x.e, none);
    let y = b.pool.at(x.e, 0);
    let plain = b.pool.at(y, 3);
    let named = b.pool.different(plain, none);
    let test = b.pool.both(there, named);
    let value = b.pool.at(x.e, 1);
    let other = b.pool.pair(plain, value);
    let e = b.pool.choice(test, other, x.e);
    b.push(e);
}
