//! Values of a type, any values, conditions and types, each with all that is told of it.
//!
//! Go, "Assignability", "If statements", "For statements".

ghost use Rattle.std.specs.Prelude.{◌≡◌, ◌<◌, ◌++◌, ◌∷◌, [], OnOk, IfOk, map};
ghost use Rattle.go_type.specs.Levels.{tree_of};
ghost use Rattle.go_type.specs.Table.{size};
ghost use Rattle.go_syntax.specs.View.{expr_view};
ghost use Rattle.go_typing.specs.Answer.{flaw, bad};
ghost use Rattle.go_operands.specs.EnvView.{table_of};
ghost use Rattle.go_operands.specs.AnswerView.{answer_view, flaw_view};
ghost use Rattle.go_operands.specs.Below.{AnswerBelow};
ghost use Rattle.go_calls.specs.Words.{types_of, names_of};
ghost use Rattle.go_typing.specs.Expressions as go;
ghost use Rattle.go_walk.specs.WalkView.{walk_outside};
ghost use Rattle.go_assign.specs.Taken.{decides};
ghost use Rattle.go_expr.specs.Raw.{raw_view, RawBelow, Grows};
ghost use Rattle.go_assign.specs.Settled.{valued_view, at_type, alone, as_type};

use gj_base::{NoMemory, Place};
use go_expr::parts::stack::add_own;
use go_expr::typed::{Raw, raw_in};
use go_operands::answers::answer::{Answer, Flaw};
use go_operands::answers::gone::gone_answer;
use go_operands::answers::rule::{and_flaw, bad};
use go_operands::operands::part::Part;
use go_operands::operands::wanted::{wanted, wanted_alone, wanted_type};
use go_operands::rules::kind::is_bool;
use go_operands::scopes::Env;
use go_syntax::tree::Expr;
use go_type::types::TypeId;
use std::alloc::Global;

/// What an expression is at its place, with all that is told of it.
pub struct Valued {
    pub answer: Answer,
    pub flaws: Vec<Flaw>,
}

/// Lets it go.
pub fn gone_valued(valued: Valued) {
    let Valued {
        answer,
        flaws: _flaws,
    } = valued;
    gone_answer(answer);
}

// The answer's own faults are told too.
fn with_own(alloc: Global, env: &Env, flaws: Vec<Flaw>, answer: Answer) -> Result<Valued, NoMemory>
    requires within { AnswerBelow (size (table_of env.now)) answer }
    ensures view { IfOk result (λ v. valued_view (types_of env.now) v ≡ go.valued (map flaw_view flaws.items) (answer_view (types_of env.now) answer)) }
    ensures within { IfOk result (λ v. AnswerBelow (size (table_of env.now)) v.answer) }
{
    let _ = env;
    let mut flaws = flaws;
    match add_own(alloc, &mut flaws, &answer) {
        Ok(()) => Ok(Valued { answer, flaws }),
        Err(error) => {
            gone_answer(answer);
            Err(error)
        }
    }
}

/// An expression that is typed, where a value of a type is wanted.
pub fn fit_at(alloc: Global, env: &Env, ty: TypeId, raw: Raw) -> Result<Valued, NoMemory>
    requires ty { ty.0 < size (table_of env.now) }
    requires within { RawBelow (size (table_of env.now)) raw }
    ensures view { IfOk result (λ v. valued_view (types_of env.now) v ≡ at_type (names_of env.now) (tree_of (types_of env.now) ty) (raw_view (types_of env.now) raw)) }
    ensures within { IfOk result (λ v. AnswerBelow (size (table_of env.now)) v.answer) }
{
    let Raw { part, flaws } = raw;
    let Part { place, answer } = part;
    match wanted(alloc, env.table(), place, ty, answer) {
        Ok(answer) => with_own(alloc, env, flaws, answer),
        Err(error) => Err(error),
    }
}

/// The same where any value is wanted.
pub fn fit_alone(alloc: Global, env: &Env, raw: Raw) -> Result<Valued, NoMemory>
    requires within { RawBelow (size (table_of env.now)) raw }
    ensures view { IfOk result (λ v. valued_view (types_of env.now) v ≡ alone (names_of env.now) (raw_view (types_of env.now) raw)) }
    ensures within { IfOk result (λ v. AnswerBelow (size (table_of env.now)) v.answer) }
{
    let Raw { part, flaws } = raw;
    let Part { place, answer } = part;
    match wanted_alone(alloc, env.table(), place, answer) {
        Ok(answer) => with_own(alloc, env, flaws, answer),
        Err(error) => Err(error),
    }
}

/// The same where a type is wanted.
pub fn fit_type(alloc: Global, env: &Env, raw: Raw) -> Result<Valued, NoMemory>
    requires within { RawBelow (size (table_of env.now)) raw }
    ensures view { IfOk result (λ v. valued_view (types_of env.now) v ≡ as_type (raw_view (types_of env.now) raw)) }
    ensures within { IfOk result (λ v. AnswerBelow (size (table_of env.now)) v.answer) }
{
    let Raw { part, flaws } = raw;
    let Part { place, answer } = part;
    match wanted_type(alloc, env.table(), place, answer) {
        Ok(answer) => with_own(alloc, env, flaws, answer),
        Err(error) => Err(error),
    }
}

/// An expression where a value of a type is wanted.
pub fn value_at(alloc: Global, env: &mut Env, ty: TypeId, e: &Expr) -> Result<Valued, NoMemory>
    requires ty { ty.0 < size (table_of env.old) }
    ensures view { IfOk result (λ v. valued_view (types_of env.new) v ≡ go.value_at (walk_outside env.new) (tree_of (types_of env.new) ty) (expr_view e.now)) }
    ensures within { IfOk result (λ v. AnswerBelow (size (table_of env.new)) v.answer) }
    ensures grows { OnOk result (Grows env.old env.new) }
{
    match raw_in(alloc, env, e) {
        Ok(raw) => fit_at(alloc, env, ty, raw),
        Err(error) => Err(error),
    }
}

/// An expression where any value is wanted.
pub fn value_alone(alloc: Global, env: &mut Env, e: &Expr) -> Result<Valued, NoMemory>
    ensures view { IfOk result (λ v. valued_view (types_of env.new) v ≡ go.value_alone (walk_outside env.new) (expr_view e.now)) }
    ensures within { IfOk result (λ v. AnswerBelow (size (table_of env.new)) v.answer) }
    ensures grows { OnOk result (Grows env.old env.new) }
{
    match raw_in(alloc, env, e) {
        Ok(raw) => fit_alone(alloc, env, raw),
        Err(error) => Err(error),
    }
}

/// An expression where a type is wanted.
pub fn type_in(alloc: Global, env: &mut Env, e: &Expr) -> Result<Valued, NoMemory>
    ensures view { IfOk result (λ v. valued_view (types_of env.new) v ≡ go.type_in (walk_outside env.new) (expr_view e.now)) }
    ensures within { IfOk result (λ v. AnswerBelow (size (table_of env.new)) v.answer) }
    ensures grows { OnOk result (Grows env.old env.new) }
{
    match raw_in(alloc, env, e) {
        Ok(raw) => fit_type(alloc, env, raw),
        Err(error) => Err(error),
    }
}

// ---- conditions

// What is no condition is told (86).
fn refused(alloc: Global, env: &Env, at: Place, valued: Valued) -> Result<Valued, NoMemory>
    ensures view { IfOk result (λ v. valued_view (types_of env.now) v ≡ record { answer = bad at 86; flaws = map flaw_view valued.flaws.items ++ flaw at 86 ∷ [] }) }
    ensures within { IfOk result (λ v. AnswerBelow (size (table_of env.now)) v.answer) }
{
    let _ = env;
    let Valued { answer, flaws } = valued;
    gone_answer(answer);
    let mut flaws = flaws;
    and_flaw(alloc, &mut flaws, at, 86)?;
    let answer = bad(alloc, at, 86)?;
    Ok(Valued { answer, flaws })
}

// Whether a value that there is has a boolean type. No untyped type is one.
fn decides(env: &Env, answer: &Answer) -> bool
    requires within { AnswerBelow (size (table_of env.now)) answer.now }
    ensures value { result ≡ decides (names_of env.now) (answer_view (types_of env.now) answer.now) }
{
    match answer {
        Answer::Value(found) => is_bool(env.table(), found.ty),
        Answer::Constant(_) => false,
        Answer::Truth(_) => false,
        Answer::Nil => false,
        Answer::Pending(_, _) => true,
        Answer::Type(_) => true,
        Answer::Package(_) => true,
        Answer::BuiltIn(_) => true,
        Answer::Blank => true,
        Answer::Prints {
            operands: _,
            ends_line: _,
        } => true,
        Answer::Wrong(_) => true,
        Answer::Unknown => true,
    }
}

#[tactic(auto, using(crate::proofs::ConditionLemmas::condition_kept, crate::proofs::ConditionLemmas::condition_refused))]
fn checked(alloc: Global, env: &Env, at: Place, valued: Valued) -> Result<Valued, NoMemory>
    requires within { AnswerBelow (size (table_of env.now)) valued.answer }
    ensures view { IfOk result (λ v. valued_view (types_of env.now) v ≡ go.checked_condition (walk_outside env.now) at (valued_view (types_of env.now) valued)) }
    ensures within { IfOk result (λ v. AnswerBelow (size (table_of env.now)) v.answer) }
{
    if decides(env, &valued.answer) {
        return Ok(valued);
    }
    refused(alloc, env, at, valued)
}

/// A condition: a value of a boolean type (86).
///
/// Go, "If statements", "For statements". Own: an untyped condition is a `bool`.
pub fn condition(alloc: Global, env: &mut Env, e: &Expr) -> Result<Valued, NoMemory>
    ensures view { IfOk result (λ v. valued_view (types_of env.new) v ≡ go.condition (walk_outside env.new) (expr_view e.now)) }
    ensures within { IfOk result (λ v. AnswerBelow (size (table_of env.new)) v.answer) }
    ensures grows { OnOk result (Grows env.old env.new) }
{
    match raw_in(alloc, env, e) {
        Ok(raw) => {
            let place = raw.part.place;
            match fit_alone(alloc, env, raw) {
                Ok(valued) => checked(alloc, env, place, valued),
                Err(error) => Err(error),
            }
        }
        Err(error) => Err(error),
    }
}
