//! Values of constants.
//!
//! Go, "Constants", "Constant declarations". Own: the type of a constant is a boolean, integer or
//! string type.

ghost use Rattle.std.specs.Prelude.{◌≡◌, ◌<◌, IfOk};
ghost use Rattle.go_type.specs.Levels.{tree_of};
ghost use Rattle.go_type.specs.Table.{size};
ghost use Rattle.go_typing.specs.Answer.{untyped_part};
ghost use Rattle.go_operands.specs.EnvView.{table_of};
ghost use Rattle.go_operands.specs.Below.{AnswerBelow};
ghost use Rattle.go_calls.specs.Words.{types_of, names_of};
ghost use Rattle.go_typing.specs.Declare as declare;
ghost use Rattle.go_expr.specs.Raw.{raw_view, RawBelow};
ghost use Rattle.go_assign.specs.Settled.{valued_view};
ghost use Rattle.go_assign.specs.SpecView.{spec_view, SpecBelow, constant_raw, constant_at, unscalar};
ghost use Rattle.go_body.specs.LocalConstsSpecs.{with_constant};

use gj_base::{NoMemory, Place};
use go_assign::constants::SpecType;
use go_assign::constants::told::constant_told;
use go_assign::valued::valued::{Valued, fit_at};
use go_expr::typed::Raw;
use go_operands::answers::answer::Answer;
use go_operands::answers::gone::gone_answer;
use go_operands::answers::rule::and_flaw;
use go_operands::operands::part::{Part, gone_part};
use go_operands::rules::kind::is_scalar;
use go_operands::scopes::Env;
use go_type::types::TypeId;
use std::alloc::Global;

// With what is told of it as a constant.
fn checked(alloc: Global, env: &Env, at: Place, valued: Valued) -> Result<Valued, NoMemory>
    requires within { AnswerBelow (size (table_of env.now)) valued.answer }
    ensures view { IfOk result (λ v. valued_view (types_of env.now) v ≡ with_constant at (valued_view (types_of env.now) valued)) }
    ensures within { IfOk result (λ v. AnswerBelow (size (table_of env.now)) v.answer) }
{
    let Valued { answer, flaws } = valued;
    let mut flaws = flaws;
    match constant_told(alloc, env, &mut flaws, at, &answer) {
        Ok(()) => Ok(Valued { answer, flaws }),
        Err(error) => {
            gone_answer(answer);
            Err(error)
        }
    }
}

// Without a type.
fn alone(alloc: Global, env: &Env, raw: Raw) -> Result<Valued, NoMemory>
    requires within { RawBelow (size (table_of env.now)) raw }
    ensures view { IfOk result (λ v. valued_view (types_of env.now) v ≡ constant_raw (names_of env.now) declare.no_type (raw_view (types_of env.now) raw)) }
    ensures within { IfOk result (λ v. AnswerBelow (size (table_of env.now)) v.answer) }
{
    let Raw { part, flaws } = raw;
    let Part { place, answer } = part;
    match checked(alloc, env, place, Valued { answer, flaws }) {
        Ok(valued) => Ok(valued),
        Err(error) => Err(error),
    }
}

// Of a boolean, integer or string type.
#[tactic(auto, using(crate::proofs::ConstLemmas::constant_same))]
fn scalar(alloc: Global, env: &Env, ty: TypeId, raw: Raw) -> Result<Valued, NoMemory>
    requires ty { ty.0 < size (table_of env.now) }
    requires within { RawBelow (size (table_of env.now)) raw }
    ensures view { IfOk result (λ v. valued_view (types_of env.now) v ≡ constant_at (names_of env.now) (tree_of (types_of env.now) ty) (raw_view (types_of env.now) raw)) }
    ensures within { IfOk result (λ v. AnswerBelow (size (table_of env.now)) v.answer) }
{
    let at = raw.part.place;
    match fit_at(alloc, env, ty, raw) {
        Ok(valued) => match checked(alloc, env, at, valued) {
            Ok(settled) => Ok(settled),
            Err(error) => Err(error),
        },
        Err(error) => Err(error),
    }
}

// Of another type (61).
fn refused(alloc: Global, env: &Env, raw: Raw) -> Result<Valued, NoMemory>
    ensures view { IfOk result (λ v. valued_view (types_of env.now) v ≡ unscalar (raw_view (types_of env.now) raw)) }
    ensures within { IfOk result (λ v. AnswerBelow (size (table_of env.now)) v.answer) }
{
    let _ = env;
    let Raw { part, flaws } = raw;
    let place = part.place;
    gone_part(part);
    let mut flaws = flaws;
    and_flaw(alloc, &mut flaws, place, 61)?;
    Ok(Valued {
        answer: Answer::Unknown,
        flaws,
    })
}

#[tactic(auto, using(crate::proofs::ConstLemmas::scalar_constant, crate::proofs::ConstLemmas::no_scalar))]
fn typed(alloc: Global, env: &Env, ty: TypeId, raw: Raw) -> Result<Valued, NoMemory>
    requires ty { ty.0 < size (table_of env.now) }
    requires within { RawBelow (size (table_of env.now)) raw }
    ensures view { IfOk result (λ v. valued_view (types_of env.now) v ≡ constant_raw (names_of env.now) (declare.of_type (tree_of (types_of env.now) ty)) (raw_view (types_of env.now) raw)) }
    ensures within { IfOk result (λ v. AnswerBelow (size (table_of env.now)) v.answer) }
{
    if is_scalar(env.table(), ty) {
        return scalar(alloc, env, ty, raw);
    }
    refused(alloc, env, raw)
}

// Of a type that isn't typed.
fn lost(env: &Env, raw: Raw) -> Valued
    ensures view { valued_view (types_of env.now) result ≡ record { answer = untyped_part; flaws = (raw_view (types_of env.now) raw).flaws } }
    ensures within { AnswerBelow (size (table_of env.now)) result.answer }
{
    let _ = env;
    let Raw { part, flaws } = raw;
    gone_part(part);
    Valued {
        answer: Answer::Unknown,
        flaws,
    }
}

/// A value of a constant specification of this type, with all that is told of it.
pub fn constant_of_spec(alloc: Global, env: &Env, s: SpecType, raw: Raw) -> Result<Valued, NoMemory>
    requires spec { SpecBelow (size (table_of env.now)) s }
    requires within { RawBelow (size (table_of env.now)) raw }
    ensures view { IfOk result (λ v. valued_view (types_of env.now) v ≡ constant_raw (names_of env.now) (spec_view (types_of env.now) s) (raw_view (types_of env.now) raw)) }
    ensures within { IfOk result (λ v. AnswerBelow (size (table_of env.now)) v.answer) }
{
    match s {
        SpecType::Missing => alone(alloc, env, raw),
        SpecType::Of(ty) => typed(alloc, env, ty, raw),
        SpecType::Lost => Ok(lost(env, raw)),
    }
}
