//! Parentheses, operators and indexes, from the parts that came last.
//!
//! Go, "Operators", "Index expressions".

ghost use Rattle.std.specs.Prelude.{◌≡◌, ℕ, List, ◌≤◌, ◌<◌, length, OnOk, IfOk};
ghost use Rattle.go_type.specs.Tree.{Ty};
ghost use Rattle.go_type.specs.Table.{size};
ghost use Rattle.go_typing.specs.Typing.{paren_row, operator_row};
ghost use Rattle.go_typing.specs.Unary.{unary_row};
ghost use Rattle.go_typing.specs.Index.{index_row};
ghost use Rattle.go_operands.specs.EnvView.{table_of};
ghost use Rattle.go_operands.specs.AnswerView.{answer_view};
ghost use Rattle.go_operands.specs.Below.{AnswerBelow};
ghost use Rattle.go_operands.specs.Parts.{part_view, PartBelow};
ghost use Rattle.go_calls.specs.CallView.{PartsBelow};
ghost use Rattle.go_calls.specs.Words.{types_of, names_of};
ghost use Rattle.go_expr.specs.Stacked.{DoesOne, DoesTwo};

use crate::parts::stack::{hear, take};
use gj_base::{NoMemory, Op, Place};
use go_binary::indexes::index::index;
use go_binary::rows::binary::operator;
use go_operands::answers::answer::{Answer, Flaw};
use go_operands::answers::gone::gone_answer;
use go_operands::answers::rule::is_known;
use go_operands::operands::boxes::answer_box;
use go_operands::operands::part::Part;
use go_operands::operands::prefix::unary;
use go_operands::scopes::Env;
use std::alloc::Global;

#[tactic(auto, using(crate::proofs::NodeLemmas::paren_known, crate::proofs::NodeLemmas::paren_unknown))]
fn held(answer: Answer) -> Answer
    ensures view { (ts : List Ty) → answer_view ts result ≡ paren_row (answer_view ts answer) }
    ensures within { (n : ℕ) → AnswerBelow n answer → AnswerBelow n result }
{
    if !is_known(&answer) {
        gone_answer(answer);
        return Answer::Unknown;
    }
    answer
}

/// A part in parentheses.
pub fn enclosed(
    alloc: Global,
    env: &Env,
    at: Place,
    parts: &mut Vec<Part>,
    flaws: &mut Vec<Flaw>,
) -> Result<(), NoMemory>
    requires some { 0 < length parts.old.items }
    requires within { PartsBelow (size (table_of env.now)) parts.old.items }
    ensures does { OnOk result (DoesOne (types_of env.now) at (λ x. paren_row x.answer) parts.old.items parts.new.items flaws.old.items flaws.new.items) }
    ensures within { OnOk result (PartsBelow (size (table_of env.now)) parts.new.items) }
{
    let Part {
        place: _place,
        answer,
    } = take(env, parts);
    hear(alloc, env, at, held(answer), parts, flaws)
}

/// An operator before a part.
pub fn prefixed(
    alloc: Global,
    env: &Env,
    at: Place,
    op: Op,
    parts: &mut Vec<Part>,
    flaws: &mut Vec<Flaw>,
) -> Result<(), NoMemory>
    requires some { 0 < length parts.old.items }
    requires within { PartsBelow (size (table_of env.now)) parts.old.items }
    ensures does { OnOk result (DoesOne (types_of env.now) at (unary_row (names_of env.now) at op) parts.old.items parts.new.items flaws.old.items flaws.new.items) }
    ensures within { OnOk result (PartsBelow (size (table_of env.now)) parts.new.items) }
{
    let Part { place, answer } = take(env, parts);
    match unary(alloc, env.table(), at, op, place, answer) {
        Ok(answer) => hear(alloc, env, at, answer, parts, flaws),
        Err(error) => Err(error),
    }
}

fn joined(alloc: Global, env: &Env, at: Place, op: Op, x: Part, y: Part) -> Result<Answer, NoMemory>
    requires left { PartBelow (size (table_of env.now)) x }
    requires right { PartBelow (size (table_of env.now)) y }
    ensures view { IfOk result (λ a. answer_view (types_of env.now) a ≡ operator_row (names_of env.now) at op (part_view (types_of env.now) x) (part_view (types_of env.now) y)) }
    ensures within { IfOk result (λ a. AnswerBelow (size (table_of env.now)) a) }
{
    let Part {
        place: p,
        answer: left,
    } = x;
    let Part {
        place: q,
        answer: right,
    } = y;
    match answer_box(alloc, env.table(), left) {
        Ok(left) => operator(alloc, env.table(), at, op, p, left, q, right),
        Err(error) => {
            gone_answer(right);
            Err(error)
        }
    }
}

/// An operator between two parts.
pub fn between(
    alloc: Global,
    env: &Env,
    at: Place,
    op: Op,
    parts: &mut Vec<Part>,
    flaws: &mut Vec<Flaw>,
) -> Result<(), NoMemory>
    requires some { 2 ≤ length parts.old.items }
    requires within { PartsBelow (size (table_of env.now)) parts.old.items }
    ensures does { OnOk result (DoesTwo (types_of env.now) at (operator_row (names_of env.now) at op) parts.old.items parts.new.items flaws.old.items flaws.new.items) }
    ensures within { OnOk result (PartsBelow (size (table_of env.now)) parts.new.items) }
{
    let y = take(env, parts);
    let x = take(env, parts);
    match joined(alloc, env, at, op, x, y) {
        Ok(answer) => hear(alloc, env, at, answer, parts, flaws),
        Err(error) => Err(error),
    }
}

fn index_of(alloc: Global, env: &Env, at: Place, x: Part, i: Part) -> Result<Answer, NoMemory>
    requires left { PartBelow (size (table_of env.now)) x }
    requires right { PartBelow (size (table_of env.now)) i }
    ensures view { IfOk result (λ a. answer_view (types_of env.now) a ≡ index_row (names_of env.now) at (part_view (types_of env.now) x) (part_view (types_of env.now) i)) }
    ensures within { IfOk result (λ a. AnswerBelow (size (table_of env.now)) a) }
{
    let Part {
        place: p,
        answer: left,
    } = x;
    let Part {
        place: q,
        answer: right,
    } = i;
    match answer_box(alloc, env.table(), left) {
        Ok(left) => index(alloc, env.table(), at, p, left, q, right),
        Err(error) => {
            gone_answer(right);
            Err(error)
        }
    }
}

/// A part, indexed by the next one.
pub fn indexed(
    alloc: Global,
    env: &Env,
    at: Place,
    parts: &mut Vec<Part>,
    flaws: &mut Vec<Flaw>,
) -> Result<(), NoMemory>
    requires some { 2 ≤ length parts.old.items }
    requires within { PartsBelow (size (table_of env.now)) parts.old.items }
    ensures does { OnOk result (DoesTwo (types_of env.now) at (index_row (names_of env.now) at) parts.old.items parts.new.items flaws.old.items flaws.new.items) }
    ensures within { OnOk result (PartsBelow (size (table_of env.now)) parts.new.items) }
{
    let i = take(env, parts);
    let x = take(env, parts);
    match index_of(alloc, env, at, x, i) {
        Ok(answer) => hear(alloc, env, at, answer, parts, flaws),
        Err(error) => Err(error),
    }
}
