//! Names.
//!
//! Go, "Declarations and scope", "Blank identifier", "Predeclared identifiers". Own: names for floats
//! and complex numbers are not in the profile, and a function's name that isn't called is not built
//! yet.

ghost use Rattle.std.specs.Prelude.{◌≡◌, ◌<◌, ℕ, IfOk, List, Some, None};
ghost use Rattle.go_type.specs.Tree.{Ty};
ghost use Rattle.go_type.specs.Levels.{tree_of};
ghost use Rattle.go_type.specs.Table.{places, size};
ghost use Rattle.go_core.specs.CoreTree as core;
ghost use Rattle.go_typing.specs.Env.{is_blank};
ghost use Rattle.go_typing.specs.Scopes.{visible};
ghost use Rattle.go_typing.specs.Answer.{value, package_, bad_name};
ghost use Rattle.go_typing.specs.Operand.{constant_at};
ghost use Rattle.go_typing.specs.Typing.{built_in_name, declared_row, name_row};
ghost use Rattle.go_operands.specs.BuiltinView.{builtin_view};
ghost use Rattle.go_operands.specs.View.{decl_of};
ghost use Rattle.go_operands.specs.Within.{DeclaredBelow};
ghost use Rattle.go_operands.specs.EnvView.{table_of, env_of};
ghost use Rattle.go_operands.specs.AnswerView.{answer_view};
ghost use Rattle.go_operands.specs.Below.{AnswerBelow};

use gj_base::{NoMemory, Place, Text};
use go_const::Const;
use go_core::node::{GlobalId, VarId};
use go_operands::answers::answer::{Answer, Flaw, Flaws, Found};
use go_operands::answers::constant::constant_at;
use go_operands::answers::rule::{bad, made};
use go_operands::nodes::leaf;
use go_operands::rules::builtin::Builtin;
use go_operands::scopes::{Declared, Env};
use go_type::TypeTable;
use go_type::types::TypeId;
use std::alloc::Global;

fn is_blank(name: &Text) -> bool
    ensures { result ≡ is_blank name.now }
{
    name.as_bytes() == b"_".as_slice()
}

// A name that is declared nowhere: the fault tells it.
fn undeclared(alloc: Global, at: Place, name: &Text) -> Result<Answer, NoMemory>
    ensures view { IfOk result (λ a. (ts : List Ty) → answer_view ts a ≡ bad_name at 50 name.now) }
    ensures within { IfOk result (λ a. (n : ℕ) → AnswerBelow n a) }
{
    let name = Text::from_slice(alloc, name.as_bytes())?;
    let mut items = Vec::new(alloc);
    items.push(Flaw {
        place: at,
        code: 50,
        name,
    })?;
    Ok(Answer::Wrong(Flaws { items }))
}

fn copied(alloc: Global, k: &Const) -> Result<Const, NoMemory>
    ensures value { IfOk result (λ c. c ≡ k.now) }
{
    match k {
        Const::Bool(b) => Ok(Const::Bool(*b)),
        Const::Int(z) => Ok(Const::Int(*z)),
        Const::Rune(z) => Ok(Const::Rune(*z)),
        Const::Text(text) => {
            let text = Text::from_slice(alloc, text.as_bytes())?;
            Ok(Const::Text(text))
        }
    }
}

// A constant of its type, or of an untyped one.
fn constant(alloc: Global, table: &TypeTable, k: &Const, t: TypeId) -> Result<Answer, NoMemory>
    requires within { t.0 < size table.now }
    ensures view { IfOk result (λ a. answer_view (places table.now) a ≡ value (constant_at (tree_of (places table.now) t) k.now) (tree_of (places table.now) t) (Some k.now)) }
    ensures within { IfOk result (λ a. AnswerBelow (size table.now) a) }
{
    let _ = table;
    let value = copied(alloc, k)?;
    match constant_at(alloc, t, k) {
        Ok(core) => Ok(Answer::Value(Found {
            core,
            ty: t,
            value: Some(value),
        })),
        Err(error) => Err(error),
    }
}

fn local(alloc: Global, table: &TypeTable, var: VarId, t: TypeId) -> Result<Answer, NoMemory>
    requires within { t.0 < size table.now }
    ensures view { IfOk result (λ a. answer_view (places table.now) a ≡ value (core.read (tree_of (places table.now) t) (core.local_ var.0)) (tree_of (places table.now) t) None) }
    ensures within { IfOk result (λ a. AnswerBelow (size table.now) a) }
{
    let _ = table;
    match leaf::read_local(alloc, t, var) {
        Ok(core) => Ok(made(core, t)),
        Err(error) => Err(error),
    }
}

fn global(alloc: Global, table: &TypeTable, number: u64, t: TypeId) -> Result<Answer, NoMemory>
    requires within { t.0 < size table.now }
    ensures view { IfOk result (λ a. answer_view (places table.now) a ≡ value (core.read (tree_of (places table.now) t) (core.global number)) (tree_of (places table.now) t) None) }
    ensures within { IfOk result (λ a. AnswerBelow (size table.now) a) }
{
    let _ = table;
    match leaf::read_global(alloc, t, GlobalId(number)) {
        Ok(core) => Ok(made(core, t)),
        Err(error) => Err(error),
    }
}

fn built_in_name(alloc: Global, at: Place, function: Builtin) -> Result<Answer, NoMemory>
    ensures view { IfOk result (λ a. (ts : List Ty) → answer_view ts a ≡ built_in_name at (builtin_view function)) }
    ensures within { IfOk result (λ a. (n : ℕ) → AnswerBelow n a) }
{
    match function {
        Builtin::Complex | Builtin::Imag | Builtin::Real => bad(alloc, at, 71),
        _ => Ok(Answer::BuiltIn(function)),
    }
}

fn package(alloc: Global, path: &Text) -> Result<Answer, NoMemory>
    ensures view { IfOk result (λ a. (ts : List Ty) → answer_view ts a ≡ package_ path.now) }
    ensures within { IfOk result (λ a. (n : ℕ) → AnswerBelow n a) }
{
    let path = Text::from_slice(alloc, path.as_bytes())?;
    Ok(Answer::Package(path))
}

// A name as its declaration says.
fn declared(
    alloc: Global,
    table: &TypeTable,
    at: Place,
    name: &Text,
    what: &Declared,
) -> Result<Answer, NoMemory>
    requires within { DeclaredBelow (size table.now) what.now }
    ensures view { IfOk result (λ a. answer_view (places table.now) a ≡ declared_row at name.now (Some (decl_of (places table.now) what.now))) }
    ensures within { IfOk result (λ a. AnswerBelow (size table.now) a) }
{
    let _ = name;
    match what {
        Declared::Var(var, t) => local(alloc, table, *var, *t),
        Declared::Global(number, t) => global(alloc, table, *number, *t),
        Declared::Const(k, t) => constant(alloc, table, k, *t),
        Declared::TypeName(t) => Ok(Answer::Type(*t)),
        Declared::Func(_, _) => bad(alloc, at, 0),
        Declared::Import(path) => package(alloc, path),
        Declared::Builtin(function) => built_in_name(alloc, at, *function),
        Declared::Nil => Ok(Answer::Nil),
        Declared::Refused(code) => bad(alloc, at, *code),
        Declared::Unknown => Ok(Answer::Unknown),
    }
}

/// What a name that stands at `at` is.
pub fn name(alloc: Global, env: &Env, at: Place, name: &Text) -> Result<Answer, NoMemory>
    ensures view { IfOk result (λ a. answer_view (places (table_of env.now)) a ≡ name_row at name.now (visible (env_of env.now))) }
    ensures within { IfOk result (λ a. AnswerBelow (size (table_of env.now)) a) }
{
    if is_blank(name) {
        return Ok(Answer::Blank);
    }
    match env.lookup(name.as_bytes()) {
        Some(what) => declared(alloc, env.table(), at, name, what),
        None => undeclared(alloc, at, name),
    }
}
