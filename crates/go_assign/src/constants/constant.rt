//! What a name of a constant stands for, by its value.
//!
//! Go, "Constant declarations", "Constants". Own: the type of a constant is a boolean, integer or
//! string type.

ghost use Rattle.std.specs.Prelude.{◌≡◌, ◌<◌, ◌++◌, OnOk, IfOk, ℕ, List, map, option_map};
ghost use Rattle.go_type.specs.Levels.{tree_of};
ghost use Rattle.go_type.specs.Table.{size};
ghost use Rattle.go_type.specs.Tree.{Ty};
ghost use Rattle.go_typing.specs.Env.{unknown};
ghost use Rattle.go_syntax.specs.View.{expr_view};
ghost use Rattle.go_operands.specs.EnvView.{table_of};
ghost use Rattle.go_operands.specs.View.{decl_of};
ghost use Rattle.go_operands.specs.Within.{DeclaredBelow};
ghost use Rattle.go_operands.specs.AnswerView.{answer_view, flaw_view};
ghost use Rattle.go_operands.specs.Below.{AnswerBelow};
ghost use Rattle.go_calls.specs.Words.{types_of, names_of};
ghost use Rattle.go_typing.specs.Declare as declare;
ghost use Rattle.go_typing.specs.Declare.{constant_flaws, constant_decl};
ghost use Rattle.go_walk.specs.WalkView.{walk_outside};
ghost use Rattle.go_expr.specs.Raw.{raw_view, RawBelow, Grows};
ghost use Rattle.go_assign.specs.SpecView.{spec_view, SpecBelow, TypeBelow, decl_by, constant_raw, constant_at, unscalar};

use crate::constants::told::constant_told;
use crate::constants::types::SpecType;
use crate::valued::{Valued, constant_of, fit_at, type_of};
use gj_base::{NoMemory, Place};
use go_const::Const;
use go_expr::typed::{Raw, raw_in};
use go_operands::answers::answer::{Answer, Flaw};
use go_operands::answers::gone::gone_answer;
use go_operands::answers::rule::and_flaw;
use go_operands::operands::part::{Part, gone_part};
use go_operands::rules::kind::is_scalar;
use go_operands::scopes::{Declared, Env};
use go_syntax::tree::Expr;
use go_type::types::TypeId;
use std::alloc::Global;

/// What a constant's name stands for, with all that is told of its value.
#[derive(Drop)]
pub struct Constant {
    pub what: Declared,
    pub flaws: Vec<Flaw>,
}

fn with_type(k: Option<Const>, ty: Option<TypeId>) -> Declared
    ensures value { (ts : List Ty) → decl_of ts result ≡ decl_by (option_map (tree_of ts) ty) k }
    ensures within { (n : ℕ) → TypeBelow n ty → DeclaredBelow n result }
{
    match ty {
        None => Declared::Unknown,
        Some(t) => match k {
            Some(k) => Declared::Const(k, t),
            None => Declared::Unknown,
        },
    }
}

fn declared_by(env: &Env, answer: Answer) -> Declared
    requires within { AnswerBelow (size (table_of env.now)) answer }
    ensures value { decl_of (types_of env.now) result ≡ constant_decl (answer_view (types_of env.now) answer) }
    ensures within { DeclaredBelow (size (table_of env.now)) result }
{
    let ty = type_of(env, &answer);
    with_type(constant_of(answer), ty)
}

// An answer where a constant is wanted.
fn settled(
    alloc: Global,
    env: &Env,
    at: Place,
    answer: Answer,
    flaws: Vec<Flaw>,
) -> Result<Constant, NoMemory>
    requires within { AnswerBelow (size (table_of env.now)) answer }
    ensures what { IfOk result (λ c. decl_of (types_of env.now) c.what ≡ constant_decl (answer_view (types_of env.now) answer)) }
    ensures told { IfOk result (λ c. map flaw_view c.flaws.items ≡ map flaw_view flaws.items ++ constant_flaws at (answer_view (types_of env.now) answer)) }
    ensures within { IfOk result (λ c. DeclaredBelow (size (table_of env.now)) c.what) }
{
    let mut flaws = flaws;
    match constant_told(alloc, env, &mut flaws, at, &answer) {
        Ok(()) => Ok(Constant {
            what: declared_by(env, answer),
            flaws,
        }),
        Err(error) => {
            gone_answer(answer);
            Err(error)
        }
    }
}

// Without a type.
fn alone(alloc: Global, env: &Env, raw: Raw) -> Result<Constant, NoMemory>
    requires within { RawBelow (size (table_of env.now)) raw }
    ensures what { IfOk result (λ c. decl_of (types_of env.now) c.what ≡ constant_decl (raw_view (types_of env.now) raw).part.answer) }
    ensures told { IfOk result (λ c. map flaw_view c.flaws.items ≡ (raw_view (types_of env.now) raw).flaws ++ constant_flaws (raw_view (types_of env.now) raw).part.place (raw_view (types_of env.now) raw).part.answer) }
    ensures within { IfOk result (λ c. DeclaredBelow (size (table_of env.now)) c.what) }
{
    let Raw { part, flaws } = raw;
    let Part { place, answer } = part;
    settled(alloc, env, place, answer, flaws)
}

// Of a boolean, integer or string type.
fn scalar(alloc: Global, env: &Env, ty: TypeId, raw: Raw) -> Result<Constant, NoMemory>
    requires ty { ty.0 < size (table_of env.now) }
    requires within { RawBelow (size (table_of env.now)) raw }
    ensures what { IfOk result (λ c. decl_of (types_of env.now) c.what ≡ constant_decl (constant_at (names_of env.now) (tree_of (types_of env.now) ty) (raw_view (types_of env.now) raw)).answer) }
    ensures told { IfOk result (λ c. map flaw_view c.flaws.items ≡ (constant_at (names_of env.now) (tree_of (types_of env.now) ty) (raw_view (types_of env.now) raw)).flaws) }
    ensures within { IfOk result (λ c. DeclaredBelow (size (table_of env.now)) c.what) }
{
    let place = raw.part.place;
    match fit_at(alloc, env, ty, raw) {
        Ok(valued) => {
            let Valued { answer, flaws } = valued;
            settled(alloc, env, place, answer, flaws)
        }
        Err(error) => Err(error),
    }
}

// Of another type (61).
fn refused(alloc: Global, env: &Env, raw: Raw) -> Result<Constant, NoMemory>
    ensures what { IfOk result (λ c. decl_of (types_of env.now) c.what ≡ constant_decl (unscalar (raw_view (types_of env.now) raw)).answer) }
    ensures told { IfOk result (λ c. map flaw_view c.flaws.items ≡ (unscalar (raw_view (types_of env.now) raw)).flaws) }
    ensures within { IfOk result (λ c. DeclaredBelow (size (table_of env.now)) c.what) }
{
    let _ = env;
    let Raw { part, flaws } = raw;
    let place = part.place;
    gone_part(part);
    let mut flaws = flaws;
    and_flaw(alloc, &mut flaws, place, 61)?;
    Ok(Constant {
        what: Declared::Unknown,
        flaws,
    })
}

// Of a type that isn't typed.
fn lost(env: &Env, raw: Raw) -> Constant
    ensures what { decl_of (types_of env.now) result.what ≡ unknown }
    ensures told { map flaw_view result.flaws.items ≡ (raw_view (types_of env.now) raw).flaws }
    ensures within { DeclaredBelow (size (table_of env.now)) result.what }
{
    let _ = env;
    let Raw { part, flaws } = raw;
    gone_part(part);
    Constant {
        what: Declared::Unknown,
        flaws,
    }
}

#[tactic(auto, using(crate::proofs::ConstantLemmas::scalar_decl, crate::proofs::ConstantLemmas::scalar_told, crate::proofs::ConstantLemmas::other_decl, crate::proofs::ConstantLemmas::other_told))]
fn typed(alloc: Global, env: &Env, ty: TypeId, raw: Raw) -> Result<Constant, NoMemory>
    requires ty { ty.0 < size (table_of env.now) }
    requires within { RawBelow (size (table_of env.now)) raw }
    ensures what { IfOk result (λ c. decl_of (types_of env.now) c.what ≡ constant_decl (constant_raw (names_of env.now) (declare.of_type (tree_of (types_of env.now) ty)) (raw_view (types_of env.now) raw)).answer) }
    ensures told { IfOk result (λ c. map flaw_view c.flaws.items ≡ (constant_raw (names_of env.now) (declare.of_type (tree_of (types_of env.now) ty)) (raw_view (types_of env.now) raw)).flaws) }
    ensures within { IfOk result (λ c. DeclaredBelow (size (table_of env.now)) c.what) }
{
    if is_scalar(env.table(), ty) {
        return scalar(alloc, env, ty, raw);
    }
    refused(alloc, env, raw)
}

// By the type of its specification.
fn by_spec(alloc: Global, env: &Env, spec: SpecType, raw: Raw) -> Result<Constant, NoMemory>
    requires spec { SpecBelow (size (table_of env.now)) spec }
    requires within { RawBelow (size (table_of env.now)) raw }
    ensures what { IfOk result (λ c. decl_of (types_of env.now) c.what ≡ constant_decl (constant_raw (names_of env.now) (spec_view (types_of env.now) spec) (raw_view (types_of env.now) raw)).answer) }
    ensures told { IfOk result (λ c. map flaw_view c.flaws.items ≡ (constant_raw (names_of env.now) (spec_view (types_of env.now) spec) (raw_view (types_of env.now) raw)).flaws) }
    ensures within { IfOk result (λ c. DeclaredBelow (size (table_of env.now)) c.what) }
{
    match spec {
        SpecType::Missing => alone(alloc, env, raw),
        SpecType::Of(ty) => typed(alloc, env, ty, raw),
        SpecType::Lost => Ok(lost(env, raw)),
    }
}

/// A value in a constant specification of this type: what its name stands for, and all that is told of
/// it.
#[tactic(auto, using(crate::proofs::GrowLemmas::spec_kept))]
pub fn constant_value(
    alloc: Global,
    env: &mut Env,
    spec: SpecType,
    y: &Expr,
) -> Result<Constant, NoMemory>
    requires spec { SpecBelow (size (table_of env.old)) spec }
    ensures what { IfOk result (λ c. decl_of (types_of env.new) c.what ≡ constant_decl (declare.constant_value (walk_outside env.old) (spec_view (types_of env.old) spec) (expr_view y.now)).answer) }
    ensures told { IfOk result (λ c. map flaw_view c.flaws.items ≡ (declare.constant_value (walk_outside env.old) (spec_view (types_of env.old) spec) (expr_view y.now)).flaws) }
    ensures within { IfOk result (λ c. DeclaredBelow (size (table_of env.new)) c.what) }
    ensures grows { OnOk result (Grows env.old env.new) }
{
    match raw_in(alloc, env, y) {
        Ok(raw) => by_spec(alloc, env, spec, raw),
        Err(error) => Err(error),
    }
}
