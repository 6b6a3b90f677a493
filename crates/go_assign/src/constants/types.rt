//! Types of declarations.

ghost use Rattle.std.specs.Prelude.{◌≡◌, ℕ, List, OnOk, IfOk, map, option_map};
ghost use Rattle.go_type.specs.Levels.{tree_of};
ghost use Rattle.go_type.specs.Table.{size};
ghost use Rattle.go_type.specs.Tree.{Ty};
ghost use Rattle.go_syntax.specs.View.{expr_view, maybe_expr};
ghost use Rattle.go_operands.specs.EnvView.{table_of};
ghost use Rattle.go_operands.specs.AnswerView.{flaw_view};
ghost use Rattle.go_operands.specs.Below.{AnswerBelow};
ghost use Rattle.go_calls.specs.Words.{types_of};
ghost use Rattle.go_typing.specs.Declare as declare;
ghost use Rattle.go_typing.specs.Expressions as go;
ghost use Rattle.go_walk.specs.WalkView.{walk_outside};
ghost use Rattle.go_expr.specs.Raw.{Grows};
ghost use Rattle.go_assign.specs.Settled.{valued_view};
ghost use Rattle.go_items.specs.ItemView.{type_in};
ghost use Rattle.go_assign.specs.SpecView.{spec_view, SpecBelow, TypeBelow};

use crate::valued::{Valued, type_in, type_of};
use gj_base::NoMemory;
use go_operands::answers::answer::Flaw;
use go_operands::answers::gone::gone_answer;
use go_operands::scopes::Env;
use go_syntax::tree::{Expr, ValueSpec};
use go_type::types::TypeId;
use std::alloc::Global;

/// A type, where an expression is one, with all that is told of the expression.
#[derive(Drop)]
pub struct FoundType {
    pub ty: Option<TypeId>,
    pub flaws: Vec<Flaw>,
}

/// The type of a specification: none is written, one, or one that isn't typed.
#[derive(Clone, Copy)]
pub enum SpecType {
    Missing,
    Of(TypeId),
    Lost,
}

/// It with all that is told of it.
#[derive(Drop)]
pub struct Spec {
    pub ty: SpecType,
    pub flaws: Vec<Flaw>,
}

fn taken(env: &Env, valued: Valued) -> FoundType
    requires within { AnswerBelow (size (table_of env.now)) valued.answer }
    ensures ty { option_map (tree_of (types_of env.now)) result.ty ≡ go.type_of (valued_view (types_of env.now) valued).answer }
    ensures told { map flaw_view result.flaws.items ≡ (valued_view (types_of env.now) valued).flaws }
    ensures within { TypeBelow (size (table_of env.now)) result.ty }
{
    let Valued { answer, flaws } = valued;
    let ty = type_of(env, &answer);
    gone_answer(answer);
    FoundType { ty, flaws }
}

/// An expression where a type is wanted.
#[tactic(auto, using(crate::proofs::GrowLemmas::type_before, crate::proofs::GrowLemmas::told_before))]
pub fn type_found(alloc: Global, env: &mut Env, e: &Expr) -> Result<FoundType, NoMemory>
    ensures ty { IfOk result (λ f. option_map (tree_of (types_of env.new)) f.ty ≡ go.type_of (go.type_in (walk_outside env.old) (expr_view e.now)).answer) }
    ensures told { IfOk result (λ f. map flaw_view f.flaws.items ≡ (go.type_in (walk_outside env.old) (expr_view e.now)).flaws) }
    ensures within { IfOk result (λ f. TypeBelow (size (table_of env.new)) f.ty) }
    ensures grows { OnOk result (Grows env.old env.new) }
{
    match type_in(alloc, env, e) {
        Ok(valued) => Ok(taken(env, valued)),
        Err(error) => Err(error),
    }
}

fn spec_of(found: FoundType) -> Spec
    ensures ty { (ts : List Ty) → spec_view ts result.ty ≡ declare.spec_type_of (option_map (tree_of ts) found.ty) }
    ensures told { result.flaws.items ≡ found.flaws.items }
    ensures within { (n : ℕ) → TypeBelow n found.ty → SpecBelow n result.ty }
{
    let FoundType { ty, flaws } = found;
    match ty {
        Some(t) => Spec {
            ty: SpecType::Of(t),
            flaws,
        },
        None => Spec {
            ty: SpecType::Lost,
            flaws,
        },
    }
}

/// The type of a specification, if one is written.
///
/// Go, "Constant declarations", "Variable declarations".
#[tactic(auto, using(crate::proofs::GrowLemmas::grows_not))]
pub fn spec_type(alloc: Global, env: &mut Env, ty: &Option<Expr>) -> Result<Spec, NoMemory>
    ensures ty { IfOk result (λ s. spec_view (types_of env.new) s.ty ≡ declare.spec_type (walk_outside env.old) (maybe_expr (option_map expr_view ty.now))) }
    ensures told { IfOk result (λ s. map flaw_view s.flaws.items ≡ declare.spec_type_flaws (walk_outside env.old) (maybe_expr (option_map expr_view ty.now))) }
    ensures within { IfOk result (λ s. SpecBelow (size (table_of env.new)) s.ty) }
    ensures grows { OnOk result (Grows env.old env.new) }
{
    match ty {
        None => Ok(Spec {
            ty: SpecType::Missing,
            flaws: Vec::new(alloc),
        }),
        Some(e) => match type_found(alloc, env, e) {
            Ok(found) => Ok(spec_of(found)),
            Err(error) => Err(error),
        },
    }
}

/// The type of the specification whose list stands for a constant, if there is one.
#[tactic(auto, using(crate::proofs::GrowLemmas::grows_not))]
pub fn type_of_spec(
    alloc: Global,
    env: &mut Env,
    spec: Option<&ValueSpec>,
) -> Result<Spec, NoMemory>
    ensures ty { IfOk result (λ s. spec_view (types_of env.new) s.ty ≡ declare.spec_type (walk_outside env.old) (type_in (spec).entry)) }
    ensures told { IfOk result (λ s. map flaw_view s.flaws.items ≡ declare.spec_type_flaws (walk_outside env.old) (type_in (spec).entry)) }
    ensures within { IfOk result (λ s. SpecBelow (size (table_of env.new)) s.ty) }
    ensures grows { OnOk result (Grows env.old env.new) }
{
    match spec {
        Some(spec) => spec_type(alloc, env, &spec.ty),
        None => Ok(Spec {
            ty: SpecType::Missing,
            flaws: Vec::new(alloc),
        }),
    }
}
