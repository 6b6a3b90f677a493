//! Which expressions have no call in them, part by part.

ghost use Rattle.std.specs.Prelude.{◌≡◌, true, IfOk, List};
ghost use Rattle.js_code.specs.Held.{part_of};
ghost use Rattle.js_code.specs.Parts.{Tree, trees_of, tree_of};
ghost use Rattle.js_simple.specs.Simple.{IsSomeCode, AreMarks, HasNoCall, IsSimpleTree, mark_at};

use gj_base::NoMemory;
use js_code::code::code::narrow;
use js_code::code::{Code, Part};
use std::alloc::Global;
use std::marker::Model;

/// Whether each part stands for expressions without a call.
#[derive(Drop)]
pub struct Marks {
    simple: Vec<bool>,
}

impl Model for Marks {
    ghost use Rattle.std.specs.Prelude.{List, Bool};

    ghost Value = { List Bool };

    ghost view = { λ m. m.simple.items };
}

#[inline(always)]
fn mark(marks: &[bool], i: u32) -> bool
    ensures value { result ≡ mark_at marks.now i }
{
    match marks.get(i as usize) {
        Some(simple) => *simple,
        None => false,
    }
}

// Whether a part stands for expressions without a call, with the marks of those before it.
fn is_simple(marks: &[bool], part: Part) -> bool
    ensures value { (ts : List Tree) → AreMarks ts marks.now → result ≡ true → IsSimpleTree (tree_of ts (part_of part.entry)) }
{
    match part {
        Part::Number { .. }
        | Part::Str { .. }
        | Part::Bool { .. }
        | Part::Null { .. }
        | Part::Caught { .. }
        | Part::Local { .. }
        | Part::Host { .. }
        | Part::Function { .. }
        | Part::Global { .. }
        | Part::Nowhere { .. }
        | Part::Dictionary { .. }
        | Part::NoMore => true,
        Part::Unary { e, .. } => mark(marks, e),
        Part::Binary { left, right, .. } => mark(marks, left) && mark(marks, right),
        Part::And { left, right, .. } => mark(marks, left) && mark(marks, right),
        Part::Or { left, right, .. } => mark(marks, left) && mark(marks, right),
        Part::Conditional {
            test,
            left,
            right,
            ..
        } => mark(marks, test) && mark(marks, left) && mark(marks, right),
        Part::Index { e, i, .. } => mark(marks, e) && mark(marks, i),
        Part::Length { e, .. } => mark(marks, e),
        Part::Pop { e, .. } => mark(marks, e),
        Part::CharCodeAt { e, i, .. } => mark(marks, e) && mark(marks, i),
        Part::Substring { e, from, to, .. } => {
            mark(marks, e) && mark(marks, from) && mark(marks, to)
        }
        Part::Array { items, .. } => mark(marks, items),
        Part::Decimal { e, .. } => mark(marks, e),
        Part::FromCharCode { e, .. } => mark(marks, e),
        Part::More { first, rest } => mark(marks, first) && mark(marks, rest),
        _ => false,
    }
}

// The mark of a part of code, with the marks of those before it.
fn mark_of(code: &Code, marks: &[bool], i: u32) -> bool
    requires sound { IsSomeCode code.now }
    ensures value { AreMarks (trees_of code.now) marks.now → result ≡ true → HasNoCall (trees_of code.now) i }
{
    match code.get(i) {
        Some(part) => is_simple(marks, part),
        None => false,
    }
}

impl Marks {
    /// Those of code.
    pub fn of(alloc: Global, code: &Code) -> Result<Marks, NoMemory>
        requires sound { IsSomeCode code.now }
        ensures value { IfOk result (λ m. AreMarks (trees_of code.now) m) }
    {
        let mut simple = Vec::new(alloc);
        for i in 0..code.len() {
            let n = narrow(i)?;
            let mark = mark_of(code, simple.as_slice(), n);
            simple.push(mark)?;
        }
        Ok(Marks { simple })
    }

    /// Whether a part is known to stand for expressions without a call.
    #[inline(always)]
    pub fn is_simple(&self, i: u32) -> bool
        ensures value { result ≡ mark_at self.now i }
    {
        mark(self.simple.as_slice(), i)
    }
}
