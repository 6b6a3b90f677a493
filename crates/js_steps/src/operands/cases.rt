//! The cases of a `switch`: ECMA-262 5.1, 12.11.

ghost use Rattle.std.specs.Prelude.{◌≡◌, ◌<◌, ℕ, List, Some, IfSome, pos};
ghost use Rattle.js_tree.specs.Value as run;
ghost use Rattle.js_tree.specs.Value.{whole};
ghost use Rattle.js_tree.specs.Operation.{same_value};
ghost use Rattle.js_tree.specs.Evaluate.{Setting, Scope, exec_cases, exec_through};
ghost use Rattle.js_code.specs.Held.{part_of};
ghost use Rattle.js_code.specs.Parts.{Tree, as_cases, cases_at, tree_of, trees_of};
ghost use Rattle.js_code.specs.PartClauses.{AreBelow, parts_in};
ghost use Rattle.js_value.specs.HeapSeen.{value_of};
ghost use Rattle.js_simple.specs.Simple.{IsSomeCode};
ghost use Rattle.js_steps.specs.Cases.{IsCaseOf};

use crate::bodies::Body;
use js_code::code::{Code, Part};
use js_value::heap::Value;

/// A case with a number, and the cases after it.
#[derive(Clone, Copy)]
pub struct Case {
    pub n: u64,
    pub rest: u32,
}

// The case that a part is.
fn case_in(part: Part) -> Option<Case>
    ensures value { (ts : List Tree) → IsCaseOf ts (as_cases (Some (tree_of ts (part_of part.entry)))) result }
    ensures below { (k : ℕ) → AreBelow k (parts_in (part_of part.entry)) → IfSome result (λ c. c.rest < k) }
{
    match part {
        Part::Case { rest, n, .. } => Some(Case { n, rest }),
        _ => None,
    }
}

// The case with which cases begin.
fn case_at(code: &Code, i: u32) -> Option<Case>
    ensures value { IsSomeCode code.now → IsCaseOf (trees_of code.now) (cases_at (trees_of code.now) i) result }
    ensures below { IsSomeCode code.now → IfSome result (λ c. c.rest < i) }
{
    match code.get(i) {
        Some(part) => case_in(part),
        None => None,
    }
}

fn is_number(v: Value, n: u64) -> bool
    ensures value { result ≡ same_value (value_of v.entry) (whole (pos n)) }
{
    match v {
        Value::Whole(x) => x.n >= 0 && x.n as u64 == n,
        _ => false,
    }
}

/// The first case whose number a value is, else `default`, else the end of the cases.
pub fn case_of<'a>(body: &Body<'a>, cases: u32, v: Value<'a>) -> u32
    ensures value { IsSomeCode body.now.code → (st : Setting) (sc : Scope) (f : run.Frame) → exec_cases st sc (cases_at (trees_of body.now.code) cases) (value_of v.entry) f ≡ exec_through st sc (cases_at (trees_of body.now.code) result) f }
{
    let mut list = cases;
    while let Some(case) = case_at(&body.code, list) {
        if is_number(v, case.n) {
            return list;
        }
        list = case.rest;
    }
    list
}
