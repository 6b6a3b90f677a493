//! The type of a specification, and the types of its variables.
//!
//! Go, "Variable declarations".

ghost use Rattle.std.specs.Prelude.{◌≡◌, ◌++◌, ◌<◌, OnOk, IfOk, IfSome, List, map, option_map};
ghost use Rattle.go_type.specs.Tree.{Ty};
ghost use Rattle.go_type.specs.Levels.{tree_of};
ghost use Rattle.go_type.specs.Table.{size};
ghost use Rattle.go_syntax.specs.View.{expr_view, maybe_expr};
ghost use Rattle.go_operands.specs.EnvView.{table_of};
ghost use Rattle.go_operands.specs.AnswerView.{answer_view, flaw_view};
ghost use Rattle.go_operands.specs.Below.{AnswerBelow};
ghost use Rattle.go_calls.specs.Words.{types_of, names_of};
ghost use Rattle.go_assign.specs.SpecView.{spec_view, SpecBelow};
ghost use Rattle.go_typing.specs.Declare.{type_uses, spec_type, spec_type_flaws, spec_var_type, spec_or, fits_spec, zero_type};
ghost use Rattle.go_walk.specs.WalkView.{walk_of};
ghost use Rattle.go_expr.specs.Raw.{raw_view, RawBelow};
ghost use Rattle.go_assign.specs.Settled.{valued_view};
ghost use Rattle.go_assign.specs.Moves.{Moves, Stays};
ghost use Rattle.go_body.specs.LocalVarsSpecs.{raw_value};

use gj_base::NoMemory;
use go_assign::constants::{Spec, SpecType, spec_type};
use go_assign::effects::used;
use go_assign::valued::taken::type_of;
use go_assign::valued::told::move_flaws;
use go_assign::valued::valued::{Valued, fit_alone, fit_at};
use go_expr::typed::Raw;
use go_operands::answers::answer::{Answer, Flaw};
use go_operands::operands::part::Part;
use go_operands::rules::kind::same_type;
use go_operands::scopes::Env;
use go_syntax::tree::Expr;
use go_type::types::TypeId;
use go_walk::walk::Walk;
use std::alloc::Global;

// ---- the type

/// The variables that a type uses, where there is one.
#[tactic(auto, using(crate::proofs::LocalVarsSpecLemmas::use_some, crate::proofs::LocalVarsSpecLemmas::use_none))]
pub fn use_type(walk: &mut Walk, e: &Option<Expr>) -> Result<(), NoMemory>
    ensures moves { OnOk result (Moves (type_uses (maybe_expr (option_map expr_view e.now))) walk.old walk.new) }
    ensures env { walk.new.env ≡ walk.old.env }
{
    match e {
        Some(e) => match used(walk, e) {
            Ok(()) => Ok(()),
            Err(error) => Err(error),
        },
        None => Ok(()),
    }
}

/// The type of a specification, with what is told of it.
#[tactic(auto, using(crate::proofs::LocalVarsSpecLemmas::told_then, go_assign::proofs::WalkLemmas::stays_grown))]
pub fn told_spec(
    walk: &mut Walk,
    flaws: &mut Vec<Flaw>,
    e: &Option<Expr>,
) -> Result<SpecType, NoMemory>
    ensures view { IfOk result (λ s. (us : List Ty) → spec_view (types_of walk.new.env) s ≡ spec_type (walk_of us walk.old) (maybe_expr (option_map expr_view e.now))) }
    ensures below { IfOk result (λ s. SpecBelow (size (table_of walk.new.env)) s) }
    ensures told { OnOk result ((us : List Ty) → map flaw_view flaws.new.items ≡ map flaw_view flaws.old.items ++ spec_type_flaws (walk_of us walk.old) (maybe_expr (option_map expr_view e.now))) }
    ensures stays { OnOk result (Stays walk.old walk.new) }
{
    let alloc = *flaws.allocator();
    match spec_type(alloc, &mut walk.env, e) {
        Ok(spec) => {
            let Spec { ty, flaws: more } = spec;
            match move_flaws(flaws, more) {
                Ok(()) => Ok(ty),
                Err(error) => Err(error),
            }
        }
        Err(error) => Err(error),
    }
}

// ---- values

/// A value of a specification with this type, as it is typed.
pub fn settled(alloc: Global, env: &Env, s: SpecType, raw: Raw) -> Result<Valued, NoMemory>
    requires spec { SpecBelow (size (table_of env.now)) s }
    requires within { RawBelow (size (table_of env.now)) raw }
    ensures view { IfOk result (λ v. valued_view (types_of env.now) v ≡ raw_value (names_of env.now) (spec_view (types_of env.now) s) (raw_view (types_of env.now) raw)) }
    ensures within { IfOk result (λ v. AnswerBelow (size (table_of env.now)) v.answer) }
{
    match s {
        SpecType::Missing => match fit_alone(alloc, env, raw) {
            Ok(valued) => Ok(valued),
            Err(error) => Err(error),
        },
        SpecType::Of(ty) => match fit_at(alloc, env, ty, raw) {
            Ok(valued) => Ok(valued),
            Err(error) => Err(error),
        },
        SpecType::Lost => {
            let Raw { part, flaws } = raw;
            let Part {
                place: _place,
                answer,
            } = part;
            Ok(Valued { answer, flaws })
        }
    }
}

/// The type of a variable with such a value.
pub fn var_type(env: &Env, s: SpecType, answer: &Answer) -> Option<TypeId>
    requires spec { SpecBelow (size (table_of env.now)) s }
    requires within { AnswerBelow (size (table_of env.now)) answer.now }
    ensures value { option_map (tree_of (types_of env.now)) result ≡ spec_var_type (spec_view (types_of env.now) s) (answer_view (types_of env.now) answer.now) }
    ensures within { IfSome result (λ t. t.0 < size (table_of env.now)) }
{
    match s {
        SpecType::Missing => type_of(env, answer),
        SpecType::Of(ty) => Some(ty),
        SpecType::Lost => None,
    }
}

/// The type of a variable without a value.
pub fn zero_of(env: &Env, s: SpecType) -> Option<TypeId>
    requires spec { SpecBelow (size (table_of env.now)) s }
    ensures value { option_map (tree_of (types_of env.now)) result ≡ zero_type (spec_view (types_of env.now) s) }
    ensures within { IfSome result (λ t. t.0 < size (table_of env.now)) }
{
    let _ = env;
    match s {
        SpecType::Missing => None,
        SpecType::Of(ty) => Some(ty),
        SpecType::Lost => None,
    }
}

/// The type of a variable that takes one of the several values of a call.
pub fn one_type(env: &Env, s: SpecType, t: TypeId) -> Option<TypeId>
    requires spec { SpecBelow (size (table_of env.now)) s }
    requires below { t.0 < size (table_of env.now) }
    ensures value { option_map (tree_of (types_of env.now)) result ≡ spec_or (spec_view (types_of env.now) s) (tree_of (types_of env.now) t) }
    ensures within { IfSome result (λ t. t.0 < size (table_of env.now)) }
{
    let _ = env;
    match s {
        SpecType::Missing => Some(t),
        SpecType::Of(ty) => Some(ty),
        SpecType::Lost => None,
    }
}

/// Whether it may take a value of this type.
pub fn fits(env: &Env, s: SpecType, t: TypeId) -> bool
    requires spec { SpecBelow (size (table_of env.now)) s }
    requires below { t.0 < size (table_of env.now) }
    ensures value { result ≡ fits_spec (spec_view (types_of env.now) s) (tree_of (types_of env.now) t) }
{
    match s {
        SpecType::Missing => true,
        SpecType::Of(ty) => same_type(env.table(), ty, t),
        SpecType::Lost => true,
    }
}
