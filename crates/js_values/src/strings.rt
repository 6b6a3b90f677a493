//! Strings: Go specification (as of Go 1.17), "String concatenation", "Index expressions", "Conversions to
//! and from a string type".

ghost use Rattle.js_pool.specs.Stands.{Grows, Builds1, Builds2};
ghost use Rattle.js_body.specs.Tells.{Runs, Runs2, Gives2};
ghost use Rattle.js_values.specs.Steps.{on_last};
ghost use Rattle.js_values.specs.Values.{long_test, long_refused, concatenated, encoded, encoded_tree, wide_encoded, wide_encoded_tree, byte_tree, byte_refused, byte_read, text_tree};

use crate::numbers::low_or;
use gj_base::Kind;
use go_type::types::TypeId;
use js_body::{Body, Operand};
use js_facts::Held;
use js_facts::held::element;
use js_pool::{ExprId, Pool};

/// The most bytes of a string.
pub const MOST_BYTES: u64 = 268435456;

/// The last two values as one string.
pub fn concat(b: &mut Body<'_>)
    ensures { Runs b.old b.new concatenated }
{
    let y = b.pop();
    let x = b.pop();
    refuse_long(b, x.e, y.e);
    let e = b.pool.plus(x.e, y.e);
    b.push(e);
}

// A panic where two strings together are too long.
fn refuse_long(b: &mut Body<'_>, x: ExprId, y: ExprId)
    ensures { Runs2 b.old b.new x y long_refused }
{
    let long = is_long(&mut b.pool, x, y);
    b.panic_if(long, 6);
}

fn is_long(p: &mut Pool, x: ExprId, y: ExprId) -> ExprId
    ensures { Builds2 p.old p.new result x y long_test }
{
    let few = p.length(x);
    let more = p.length(y);
    let bytes = p.plus(few, more);
    let most = p.num(MOST_BYTES);
    p.greater(bytes, most)
}

/// The byte of a string, the last value but one, at an index of this kind.
pub fn byte_at(b: &mut Body<'_>, kind: Kind)
    ensures { Runs b.old b.new (byte_read kind) }
{
    let i = b.pop();
    let s = b.pop();
    let e = byte_of(b, kind, s.e, i);
    b.push(e);
}

fn byte_of(b: &mut Body<'_>, kind: Kind, s: ExprId, i: Operand) -> ExprId
    ensures { Gives2 b.old b.new s i.e result (λ t u r. byte_tree kind t u) (byte_refused kind) }
{
    let n = b.pool.length(s);
    let i = b.within(kind, i, n);
    b.pool.char_code_at(s, i)
}

// ---- conversions

/// The string of a character.
pub fn encode(b: &mut Body<'_>)
    ensures { Runs b.old b.new encoded }
{
    let x = b.pop();
    let e = b.pool.call1(b"$encode", x.e);
    b.push(e);
}

/// The string of a character that is given by two halves.
pub fn encode_wide(b: &mut Body<'_>)
    ensures { Runs b.old b.new wide_encoded }
{
    let x = b.pop();
    let e = encoded_wide(&mut b.pool, x.e);
    b.push(e);
}

fn encoded_wide(p: &mut Pool, e: ExprId) -> ExprId
    ensures { Builds1 p.old p.new result e wide_encoded_tree }
{
    let other = p.num(65533);
    let n = low_or(p, e, other);
    p.call1(b"$encode", n)
}

// Whether the elements of a slice are runes, and not bytes.
fn holds_runes(b: &Body<'_>, t: TypeId) -> bool {
    match b.held(element(b.table(), t)) {
        Held::Small(Kind::I32) => true,
        _ => false,
    }
}

/// The bytes or the runes of a string, as a slice of a type.
pub fn split(b: &mut Body<'_>, to: TypeId)
    ensures { Grows b.old.pool b.new.pool }
{
    let runes = holds_runes(b, to);
    split_as(b, runes);
}

fn split_as(b: &mut Body<'_>, runes: bool)
    ensures { Grows b.old.pool b.new.pool }
{
    let x = b.pop();
    let word: &'static [u8] = if runes { b"$runes" } else { b"$bytes" };
    let e = b.pool.call1(word, x.e);
    b.push(e);
}

/// The string of bytes or runes, in a slice of a type.
pub fn join(b: &mut Body<'_>, from: TypeId)
    ensures { Grows b.old.pool b.new.pool }
{
    let runes = holds_runes(b, from);
    join_as(b, runes);
}

fn join_as(b: &mut Body<'_>, runes: bool)
    ensures { Runs b.old b.new (on_last (text_tree runes)) }
{
    let x = b.pop();
    let e = text_of(&mut b.pool, runes, x.e);
    b.push(e);
}

fn text_of(p: &mut Pool, runes: bool, e: ExprId) -> ExprId
    ensures { Builds1 p.old p.new result e (text_tree runes) }
{
    let runes = p.truth(runes);
    p.call2(b"$text", e, runes)
}
