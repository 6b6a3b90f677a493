//! Constants and zero values: Go specification (as of Go 1.17), "Constants", "The zero value".

ghost use Rattle.std.specs.Prelude.{◌≡◌, length, nat_lt};
ghost use Rattle.go_core.specs.CoreView.{constant_of};
ghost use Rattle.js_pool.specs.Stands.{Grows, Builds};
ghost use Rattle.js_facts.specs.Held.{how};
ghost use Rattle.js_body.specs.State.{held_type};
ghost use Rattle.js_body.specs.Tells.{Runs};
ghost use Rattle.js_values.specs.Steps.{type_kind, is_scalar, RunsWhen};
ghost use Rattle.js_values.specs.Values.{zero_done, constant_done, text_pushed, text_done, number_done, small_number, wide_bits, wide_tree, wide_pushed};

use crate::strings::MOST_BYTES;
use gj_base::Kind;
use go_core::node::Constant;
use go_type::types::TypeId;
use js_body::{Body, Known};
use js_facts::Held;
use js_int::is_wide;
use js_pool::{ExprId, Pool};

/// A constant of a type.
pub fn constant(b: &mut Body<'_>, t: TypeId, value: &Constant)
    ensures { Runs b.old b.new (λ s. constant_done (type_kind t s) (constant_of value.now) s) }
{
    let kind = b.int_kind(t);
    constant_at(b, kind, value);
}

fn constant_at(b: &mut Body<'_>, kind: Kind, value: &Constant)
    ensures { Runs b.old b.new (constant_done kind (constant_of value.now)) }
{
    match value {
        Constant::Bool(x) => b.push_truth(*x),
        Constant::Text(s) => text(b, s.as_bytes()),
        Constant::Int(n) => number(b, kind, *n),
    }
}

// A string past the limit panics.
fn text(b: &mut Body<'_>, s: &[u8])
    ensures { Runs b.old b.new (text_done s.now) }
{
    if is_long(s) {
        b.panic(6);
        push_text(b, b"");
    } else {
        push_text(b, s);
    }
}

fn is_long(s: &[u8]) -> bool
    ensures { result ≡ nat_lt 268435456 (length s.now) }
{
    s.len() as u64 > MOST_BYTES
}

fn push_text(b: &mut Body<'_>, s: &[u8])
    ensures { Runs b.old b.new (text_pushed s.now) }
{
    let e = b.pool.text(s);
    b.push_known(e, Known::Constant);
}

// A whole number, which lies in the range of its kind.
fn number(b: &mut Body<'_>, kind: Kind, n: i128)
    ensures { Runs b.old b.new (number_done kind n) }
{
    if is_wide(kind) {
        wide(b, n);
    } else {
        b.push_number(small_number(n));
    }
}

fn small_number(n: i128) -> i64
    ensures { result ≡ small_number n }
{
    if n < -4294967296 || n > 4294967296 {
        0
    } else {
        n as i64
    }
}

fn wide(b: &mut Body<'_>, n: i128)
    ensures { Runs b.old b.new (wide_pushed n) }
{
    let e = halves(&mut b.pool, wide_bits(n));
    b.push(e);
}

// A number of 64 bits without sign, or the two's complement of one with a sign.
fn wide_bits(n: i128) -> u64
    ensures { result ≡ wide_bits n }
{
    if n >= 0 && n < 18446744073709551616 {
        n as u64
    } else if n < 0 && n >= -9223372036854775808 {
        (n + 18446744073709551616) as u64
    } else {
        0
    }
}

fn halves(p: &mut Pool, bits: u64) -> ExprId
    ensures { Builds p.old p.new result (wide_tree bits) }
{
    let high = p.num(bits / 4294967296);
    let low = p.num(bits % 4294967296);
    p.pair(high, low)
}

/// The zero value of a type.
pub fn zero_value(b: &mut Body<'_>, t: TypeId)
    ensures { RunsWhen b.old b.new (λ s. is_scalar (held_type t s)) (λ s. zero_done (held_type t s) s) }
{
    let held = b.held(t);
    zero_of(b, held, t);
}

fn zero_of(b: &mut Body<'_>, held: Held, t: TypeId)
    ensures { RunsWhen b.old b.new (λ s. is_scalar (how held)) (zero_done (how held)) }
{
    match held {
        Held::Truth => b.push_truth(false),
        Held::Small(_) => b.push_number(0),
        Held::Str => push_text(b, b""),
        Held::Wide(_) => wide(b, 0),
        Held::Struct(_) => zero_block(b, t),
        Held::Array(_, _) => zero_block(b, t),
        _ => b.push_nil(),
    }
}

fn zero_block(b: &mut Body<'_>, t: TypeId)
    ensures { Grows b.old.pool b.new.pool }
{
    let e = b.zero(t);
    b.push(e);
}
