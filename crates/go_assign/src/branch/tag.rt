//! The tag of a `switch`.
//!
//! Go, "Expression switches".

ghost use Rattle.std.specs.Prelude.{◌≡◌, ◌<◌, ◌++◌, [], Some, true, OnOk, IfOk, List, map, option_map};
ghost use Rattle.go_const.specs.declared.constant.Const.TheVariants as form;
ghost use Rattle.go_type.specs.Tree as ty;
ghost use Rattle.go_type.specs.Tree.{Ty};
ghost use Rattle.go_type.specs.Table.{size};
ghost use Rattle.go_syntax.specs.View.{expr_view, maybe_expr};
ghost use Rattle.go_syntax.specs.Tree as t;
ghost use Rattle.go_expr.specs.Raw.{raw_view, RawBelow};
ghost use Rattle.go_typing.specs.Operand.{constant_at};
ghost use Rattle.go_operands.specs.EnvView.{table_of};
ghost use Rattle.go_operands.specs.AnswerView.{flaw_view};
ghost use Rattle.go_operands.specs.Below.{AnswerBelow};
ghost use Rattle.go_calls.specs.Words.{types_of, names_of};
ghost use Rattle.go_typing.specs.Walk.{uses};
ghost use Rattle.go_typing.specs.Statements as go;
ghost use Rattle.go_typing.specs.Statements.{condition_uses};
ghost use Rattle.go_walk.specs.WalkView.{walk_of};
ghost use Rattle.go_assign.specs.Settled.{valued_view, alone};
ghost use Rattle.go_assign.specs.Taken.{StandsFor};
ghost use Rattle.go_assign.specs.Passed.{Passes};
ghost use Rattle.go_assign.specs.TagView.{IsTag, tag_in};

use crate::branch::used::raw_used;
use crate::valued::taken::{core_of, type_of};
use crate::valued::told::move_flaws;
use crate::valued::valued::{Valued, fit_alone};
use gj_base::NoMemory;
use go_const::Const;
use go_core::node::CoreExpr;
use go_expr::typed::Raw;
use go_operands::answers::answer::Flaw;
use go_operands::answers::constant::constant_at;
use go_operands::answers::gone::gone_answer;
use go_operands::rules::kind::bool_type;
use go_operands::scopes::Env;
use go_syntax::tree::Expr;
use go_type::types::TypeId;
use go_walk::walk::Walk;
use std::alloc::Global;

/// The type of the tag, if it is typed, and its value.
pub struct Tag {
    pub ty: Option<TypeId>,
    pub core: CoreExpr,
}

// Own: a missing tag is `true`.
#[tactic(auto, using(crate::proofs::TagLemmas::truth_stands))]
fn truth(alloc: Global, env: &Env) -> Result<CoreExpr, NoMemory>
    ensures core { IfOk result (StandsFor (table_of env.now) (constant_at ty.bool (form.Bool true))) }
{
    match constant_at(alloc, bool_type(env.table()), &Const::Bool(true)) {
        Ok(core) => Ok(core),
        Err(error) => Err(error),
    }
}

#[tactic(auto, using(crate::proofs::TagLemmas::no_tag))]
fn missing(alloc: Global, env: &Env) -> Result<Tag, NoMemory>
    ensures tag { IfOk result (IsTag (record { type_ = Some ty.bool; core = constant_at ty.bool (form.Bool true); flaws = [] }) (table_of env.now)) }
{
    match truth(alloc, env) {
        Ok(core) => Ok(Tag {
            ty: Some(bool_type(env.table())),
            core,
        }),
        Err(error) => Err(error),
    }
}

#[tactic(auto, using(crate::proofs::TagLemmas::tag_from))]
fn tag_with(env: &Env, flaws: &mut Vec<Flaw>, valued: Valued) -> Result<Tag, NoMemory>
    requires within { AnswerBelow (size (table_of env.now)) valued.answer }
    ensures tag { IfOk result (IsTag (tag_in (valued_view (types_of env.now) valued)) (table_of env.now)) }
    ensures told { OnOk result (map flaw_view flaws.new.items ≡ map flaw_view flaws.old.items ++ (valued_view (types_of env.now) valued).flaws) }
{
    let Valued {
        answer,
        flaws: more,
    } = valued;
    match move_flaws(flaws, more) {
        Ok(()) => {
            let ty = type_of(env, &answer);
            match core_of(*flaws.allocator(), env, answer) {
                Ok(core) => Ok(Tag { ty, core }),
                Err(error) => Err(error),
            }
        }
        Err(error) => {
            gone_answer(answer);
            Err(error)
        }
    }
}

#[tactic(auto, using(crate::proofs::TagLemmas::tag_same, crate::proofs::TagLemmas::told_same))]
fn fit_tag(env: &Env, flaws: &mut Vec<Flaw>, raw: Raw) -> Result<Tag, NoMemory>
    requires within { RawBelow (size (table_of env.now)) raw }
    ensures tag { IfOk result (IsTag (tag_in (alone (names_of env.now) (raw_view (types_of env.now) raw))) (table_of env.now)) }
    ensures told { OnOk result (map flaw_view flaws.new.items ≡ map flaw_view flaws.old.items ++ (alone (names_of env.now) (raw_view (types_of env.now) raw)).flaws) }
{
    match fit_alone(*flaws.allocator(), env, raw) {
        Ok(valued) => match tag_with(env, flaws, valued) {
            Ok(tag) => Ok(tag),
            Err(error) => Err(error),
        },
        Err(error) => Err(error),
    }
}

#[tactic(auto, using(crate::proofs::TagLemmas::tag_before, crate::proofs::TagLemmas::tag_told))]
fn given(walk: &mut Walk, flaws: &mut Vec<Flaw>, x: &Expr) -> Result<Tag, NoMemory>
    ensures tag { IfOk result (λ g. (ts : List Ty) → IsTag (go.tag_of (walk_of ts walk.old) (t.AnExpr (expr_view x.now))) (table_of walk.new.env) g) }
    ensures told { OnOk result ((ts : List Ty) → map flaw_view flaws.new.items ≡ map flaw_view flaws.old.items ++ (go.tag_of (walk_of ts walk.old) (t.AnExpr (expr_view x.now))).flaws) }
    ensures passes { OnOk result (Passes (uses (expr_view x.now)) walk.old walk.new) }
{
    match raw_used(walk, x) {
        Ok(raw) => match fit_tag(&walk.env, flaws, raw) {
            Ok(tag) => Ok(tag),
            Err(error) => Err(error),
        },
        Err(error) => Err(error),
    }
}

/// The tag, which is used and typed.
#[tactic(auto, using(crate::proofs::TagLemmas::none_told, crate::proofs::TagLemmas::none_used, crate::proofs::TagLemmas::tag_some, crate::proofs::TagLemmas::told_some))]
pub fn tag_of(walk: &mut Walk, flaws: &mut Vec<Flaw>, x: &Option<Expr>) -> Result<Tag, NoMemory>
    ensures tag { IfOk result (λ g. (ts : List Ty) → IsTag (go.tag_of (walk_of ts walk.old) (maybe_expr (option_map expr_view x.now))) (table_of walk.new.env) g) }
    ensures told { OnOk result ((ts : List Ty) → map flaw_view flaws.new.items ≡ map flaw_view flaws.old.items ++ (go.tag_of (walk_of ts walk.old) (maybe_expr (option_map expr_view x.now))).flaws) }
    ensures passes { OnOk result (Passes (condition_uses (maybe_expr (option_map expr_view x.now))) walk.old walk.new) }
{
    match x {
        Some(x) => match given(walk, flaws, x) {
            Ok(tag) => Ok(tag),
            Err(error) => Err(error),
        },
        None => match missing(*flaws.allocator(), &walk.env) {
            Ok(tag) => Ok(tag),
            Err(error) => Err(error),
        },
    }
}
