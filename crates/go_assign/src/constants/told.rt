//! What is told of a value that is to be a constant.

ghost use Rattle.std.specs.Prelude.{◌≡◌, ◌<◌, ◌++◌, OnOk, map};
ghost use Rattle.go_type.specs.Levels.{tree_of};
ghost use Rattle.go_type.specs.Table.{places, size};
ghost use Rattle.go_core.specs.CoreView.{expr_view};
ghost use Rattle.go_typing.specs.Answer.{value};
ghost use Rattle.go_operands.specs.EnvView.{table_of};
ghost use Rattle.go_operands.specs.AnswerView.{answer_view, flaw_view};
ghost use Rattle.go_operands.specs.Below.{AnswerBelow};
ghost use Rattle.go_calls.specs.Words.{types_of};
ghost use Rattle.go_typing.specs.Declare.{constant_flaws};
ghost use Rattle.go_assign.specs.SpecView.{is_tuple};

use gj_base::{NoMemory, Place};
use go_operands::answers::answer::{Answer, Flaw, Found};
use go_operands::answers::rule::and_flaw;
use go_operands::scopes::Env;
use go_type::TypeTable;
use go_type::types::{GoType, TypeId};
use std::alloc::Global;

fn is_tuple(table: &TypeTable, t: TypeId) -> bool
    requires { t.0 < size table.now }
    ensures value { result ≡ is_tuple (tree_of (places table.now) t) }
{
    match table.get(t) {
        GoType::Tuple(_) => true,
        _ => false,
    }
}

// A call that gives no value or several is no value (52), and a value may be no constant (61).
#[tactic(auto, using(crate::proofs::ConstantLemmas::tuple_told, crate::proofs::ConstantLemmas::none_told, crate::proofs::ConstantLemmas::some_told))]
fn value_told(
    alloc: Global,
    env: &Env,
    flaws: &mut Vec<Flaw>,
    at: Place,
    found: &Found,
) -> Result<(), NoMemory>
    requires within { found.now.ty.0 < size (table_of env.now) }
    ensures told { OnOk result (map flaw_view flaws.new.items ≡ map flaw_view flaws.old.items ++ constant_flaws at (value (expr_view (types_of env.now) found.now.core) (tree_of (types_of env.now) found.now.ty) found.now.value)) }
{
    if is_tuple(env.table(), found.ty) {
        return and_flaw(alloc, flaws, at, 52);
    }
    match &found.value {
        Some(_) => Ok(()),
        None => and_flaw(alloc, flaws, at, 61),
    }
}

/// Adds what is told of an answer where a constant is wanted: it is no constant (61), or no value (52).
///
/// Go, "Constant declarations".
pub fn constant_told(
    alloc: Global,
    env: &Env,
    flaws: &mut Vec<Flaw>,
    at: Place,
    answer: &Answer,
) -> Result<(), NoMemory>
    requires within { AnswerBelow (size (table_of env.now)) answer.now }
    ensures told { OnOk result (map flaw_view flaws.new.items ≡ map flaw_view flaws.old.items ++ constant_flaws at (answer_view (types_of env.now) answer.now)) }
{
    match answer {
        Answer::Value(found) => value_told(alloc, env, flaws, at, found),
        Answer::Constant(_) => Ok(()),
        Answer::Truth(_) => and_flaw(alloc, flaws, at, 61),
        Answer::Nil => and_flaw(alloc, flaws, at, 61),
        Answer::Pending(_, _) => and_flaw(alloc, flaws, at, 61),
        Answer::Wrong(_) => Ok(()),
        Answer::Unknown => Ok(()),
        Answer::Type(_) => and_flaw(alloc, flaws, at, 52),
        Answer::Package(_) => and_flaw(alloc, flaws, at, 52),
        Answer::BuiltIn(_) => and_flaw(alloc, flaws, at, 52),
        Answer::Blank => and_flaw(alloc, flaws, at, 52),
        Answer::Prints {
            operands: _,
            ends_line: _,
        } => and_flaw(alloc, flaws, at, 52),
    }
}
