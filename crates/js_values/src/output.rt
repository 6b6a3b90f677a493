//! `print` and `println`: one write for each. Go specification (as of Go 1.17), "Bootstrapping".

use go_core::node::CoreExpr;
use go_type::BOOL;
use go_type::types::TypeId;
use js_body::{Body, Operand};
use js_facts::Held;
use js_facts::types::{has_ok, results, type_of, value_count};
use js_pool::ExprId;

/// So many pieces are joined in one expression.
const PIECES: usize = 32;

// What a value of a type prints.
fn shown(b: &mut Body<'_>, o: Operand, t: TypeId) -> ExprId {
    match b.held(t) {
        Held::Truth => {
            let yes = b.pool.text(b"true");
            let no = b.pool.text(b"false");
            b.pool.choice(o.e, yes, no)
        }
        Held::Small(kind) => b.told(kind, o.e),
        Held::Wide(kind) => b.told(kind, o.e),
        _ => o.e,
    }
}

// The text so far: a long one is joined piece by piece in a temporary above the values.
#[derive(Clone, Copy)]
struct Line {
    sofar: ExprId,
    pieces: usize,
}

fn join(b: &mut Body<'_>, line: &mut Line, piece: ExprId) {
    line.sofar = if line.pieces == 0 {
        piece
    } else {
        b.pool.plus(line.sofar, piece)
    };
    line.pieces = line.pieces.saturating_add(1);
    if line.pieces >= PIECES {
        line.sofar = b.scratch(line.sofar);
        line.pieces = 1;
    }
}

// Adds a value of a type, after a space where one comes before.
fn add(b: &mut Body<'_>, line: &mut Line, at: usize, t: TypeId, spaced: bool) {
    if spaced && at > 0 {
        let space = b.pool.text(b" ");
        join(b, line, space);
    }
    let o = b.value_at(at);
    let piece = shown(b, o, t);
    join(b, line, piece);
}

/// Prints the values on the stack, which these expressions gave.
pub fn print(b: &mut Body<'_>, operands: &[CoreExpr], ends_line: bool) {
    let mut line = Line {
        sofar: b.pool.text(b""),
        pieces: 0,
    };
    let mut at: usize = 0;
    for e in operands {
        for i in 0..value_count(e) {
            let t = type_at(b, e, i);
            add(b, &mut line, at, t, ends_line);
            at = at.saturating_add(1);
        }
    }
    if ends_line {
        let end = b.pool.text(b"\n");
        join(b, &mut line, end);
    }
    let call = b.pool.call1(b"$write", line.sofar);
    b.pool.perform(call);
    b.drop_to(0);
}

// The type of one of an expression's values.
fn type_at(b: &Body<'_>, e: &CoreExpr, i: usize) -> TypeId {
    if i == 0 {
        return type_of(b.table(), e);
    }
    if has_ok(e) {
        return BOOL;
    }
    match results(e).get(i) {
        Some(t) => *t,
        None => BOOL,
    }
}
