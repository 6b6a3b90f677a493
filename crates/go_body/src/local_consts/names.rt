//! Names of constants.
//!
//! Go, "Constant declarations".

ghost use Rattle.std.specs.Prelude.{◌≡◌, ◌<◌, None, OnOk, List};
ghost use Rattle.go_type.specs.Tree.{Ty};
ghost use Rattle.go_type.specs.Table.{size};
ghost use Rattle.go_core.specs.declared.statement.CoreStmt as statement;
ghost use Rattle.go_operands.specs.EnvView.{table_of};
ghost use Rattle.go_operands.specs.AnswerView.{answer_view};
ghost use Rattle.go_operands.specs.Below.{AnswerBelow};
ghost use Rattle.go_calls.specs.Words.{types_of};
ghost use Rattle.go_typing.specs.Walk.{is_there, with_name};
ghost use Rattle.go_typing.specs.Declare.{constant_decl, declare_constant};
ghost use Rattle.go_walk.specs.WalkView.{walk_of, depth};
ghost use Rattle.go_assign.specs.Outcome.{Does};
ghost use Rattle.go_assign.specs.Settled.{valued_view};
ghost use Rattle.go_body.specs.LocalConstsSpecs.{one_constant};

use gj_base::{NoMemory, Place};
use go_assign::valued::taken::{constant_of, type_of};
use go_assign::valued::told::move_flaws;
use go_assign::valued::valued::Valued;
use go_operands::answers::answer::{Answer, Flaw};
use go_operands::answers::gone::gone_answer;
use go_operands::scopes::Declared;
use go_syntax::tree::Name;
use go_walk::walk::Walk;
use go_walk::walk::again::redeclared;
use go_walk::walk::scopes::{name, there};

// A name that the scope hasn't, with what a value makes of it.
#[tactic(auto, using(crate::proofs::ConstLemmas::constant_named, crate::proofs::ConstLemmas::unknown_named, crate::proofs::ConstLemmas::untyped_named))]
fn new_constant(walk: &mut Walk, n: &Name, answer: Answer) -> Result<(), NoMemory>
    requires depth { 0 < depth walk.old }
    requires missing { (ts : List Ty) → is_there n.now (walk_of ts walk.old) ≡ None }
    requires within { AnswerBelow (size (table_of walk.old.env)) answer }
    ensures value { OnOk result ((ts : List Ty) → walk_of ts walk.new ≡ with_name n.now (constant_decl (answer_view (types_of walk.old.env) answer)) (walk_of ts walk.old)) }
    ensures depth { OnOk result (depth walk.new ≡ depth walk.old) }
    ensures table { OnOk result (table_of walk.new.env ≡ table_of walk.old.env) }
{
    match type_of(&walk.env, &answer) {
        Some(ty) => match constant_of(answer) {
            Some(k) => {
                name(walk, n, Declared::Const(k, ty))?;
                Ok(())
            }
            None => {
                name(walk, n, Declared::Unknown)?;
                Ok(())
            }
        },
        None => {
            gone_answer(answer);
            name(walk, n, Declared::Unknown)?;
            Ok(())
        }
    }
}

/// A name with what its value makes of it, unless the scope has it already.
pub fn declared_constant(
    walk: &mut Walk,
    n: &Name,
    at: Option<Place>,
    answer: Answer,
) -> Result<(), NoMemory>
    requires depth { 0 < depth walk.old }
    requires there { (ts : List Ty) → is_there n.now (walk_of ts walk.old) ≡ at }
    requires within { AnswerBelow (size (table_of walk.old.env)) answer }
    ensures value { OnOk result ((ts : List Ty) → walk_of ts walk.new ≡ declare_constant n.now at (answer_view (types_of walk.old.env) answer) (walk_of ts walk.old)) }
    ensures depth { OnOk result (depth walk.new ≡ depth walk.old) }
    ensures table { OnOk result (table_of walk.new.env ≡ table_of walk.old.env) }
{
    match at {
        Some(_) => {
            gone_answer(answer);
            Ok(())
        }
        None => {
            new_constant(walk, n, answer)?;
            Ok(())
        }
    }
}

/// A name with its value, and what is told of both.
#[tactic(auto, using(crate::proofs::ConstLemmas::one_does))]
pub fn told_constant(
    walk: &mut Walk,
    flaws: &mut Vec<Flaw>,
    n: &Name,
    valued: Valued,
) -> Result<(), NoMemory>
    requires depth { 0 < depth walk.old }
    requires within { AnswerBelow (size (table_of walk.old.env)) valued.answer }
    ensures does { OnOk result ((out : List statement.CoreStmt) → Does (one_constant n.now (valued_view (types_of walk.old.env) valued)) walk.old walk.new flaws.old.items flaws.new.items out out) }
    ensures table { OnOk result (table_of walk.new.env ≡ table_of walk.old.env) }
{
    let at = there(walk, n);
    let Valued {
        answer,
        flaws: more,
    } = valued;
    match redeclared(flaws, n, at) {
        Ok(()) => match move_flaws(flaws, more) {
            Ok(()) => match declared_constant(walk, n, at, answer) {
                Ok(()) => Ok(()),
                Err(error) => Err(error),
            },
            Err(error) => {
                gone_answer(answer);
                Err(error)
            }
        },
        Err(error) => {
            gone_answer(answer);
            Err(error)
        }
    }
}
