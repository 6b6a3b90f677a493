//! The two methods of the type of run-time panics.
//!
//! Go, "Run-time panics". Own: its value is a string with the methods `Error` and `RuntimeError`.

ghost use Rattle.std.specs.Prelude.{◌≡◌, ◌+◌, ◌∷◌, ◌++◌, [], suc, false, List, OnOk, IfOk, map};
ghost use Rattle.go_type.specs.Levels.{tree_of, trees_of};
ghost use Rattle.go_type.specs.Tree as ty;
ghost use Rattle.go_type.specs.Tree.{Ty, no_tys};
ghost use Rattle.go_core.specs.CoreTree as core;
ghost use Rattle.go_core.specs.CoreView.{var_of, expr_view, stmt_view, stmts_of, func_view};
ghost use Rattle.go_typing.specs.Known as known;
ghost use Rattle.go_typing.specs.Checked as go;

use crate::hidden::lists::{and_func, one_stmt};
use gj_base::{NoMemory, Place, Text};
use go_core::node::{CoreExpr, Var, VarId, Vars};
use go_core::program::{Func, VarIds};
use go_core::statement::CoreStmt;
use go_operands::nodes::leaf::read_local;
use go_operands::nodes::node::convert;
use go_type::Ids;
use go_type::types::{Sig, TypeId};
use go_walk::stmt_gone::gone::gone_values;
use go_walk::stmt_gone::more::and_value;
use go_walk::stmt_nodes::branch::body;
use go_walk::stmt_nodes::simple::give_back;
use go_walk::stmt_nodes::store::values;
use std::alloc::Global;

// A function that the compiler makes.
fn made(alloc: Global, results: Vec<TypeId>, vars: Vec<Var>, stmts: Vec<CoreStmt>) -> Func
    ensures value { (ts : List Ty) → func_view ts result ≡ record { name = []; params = no_tys; results = trees_of ts results.items; variadic = false; vars = map (var_of ts) vars.items; captured = []; body = stmts_of (map (stmt_view ts) stmts.items); place = go.first_byte } }
{
    Func {
        name: Text::new(alloc),
        sig: Sig {
            params: Ids::new(alloc),
            results: Ids::from_vec(results),
            variadic: false,
        },
        vars: Vars { items: vars },
        captured: VarIds {
            items: Vec::new(alloc),
        },
        body: body(stmts),
        place: Place { file: 0, offset: 0 },
    }
}

fn alone(alloc: Global, whole: CoreExpr) -> Result<CoreStmt, NoMemory>
    ensures value { IfOk result (λ s. (ts : List Ty) → stmt_view ts s ≡ core.return_ (core.expr (expr_view ts whole) core.no_exprs)) }
{
    let mut list = Vec::new(alloc);
    match and_value(&mut list, whole) {
        Ok(()) => {
            let back = give_back(alloc, values(list))?;
            Ok(back)
        }
        Err(error) => {
            gone_values(list);
            Err(error)
        }
    }
}

// `return string(x)`
fn text_back(alloc: Global, hidden: TypeId, text: TypeId, var: VarId) -> Result<CoreStmt, NoMemory>
    ensures value { IfOk result (λ s. (ts : List Ty) → stmt_view ts s ≡ core.return_ (core.expr (core.convert (tree_of ts hidden) (tree_of ts text) (core.read (tree_of ts hidden) (core.local_ var.0))) core.no_exprs)) }
{
    match read_local(alloc, hidden, var) {
        Ok(read) => match convert(alloc, hidden, text, read) {
            Ok(whole) => {
                let back = alone(alloc, whole)?;
                Ok(back)
            }
            Err(error) => Err(error),
        },
        Err(error) => Err(error),
    }
}

fn next(n: u64) -> Result<u64, NoMemory>
    ensures value { IfOk result (λ m. m ≡ suc n) }
{
    match n.checked_add(1) {
        Some(m) => Ok(m),
        None => Err(NoMemory),
    }
}

// The receiver, and the result.
fn both_vars(alloc: Global, hidden: TypeId, text: TypeId, n: u64) -> Result<Vec<Var>, NoMemory>
    ensures value { IfOk result (λ vs. (ts : List Ty) → map (var_of ts) vs.items ≡ go.var_at n (tree_of ts hidden) ∷ go.var_at (suc n) (tree_of ts text) ∷ []) }
{
    let second = next(n)?;
    let mut vars = Vec::new(alloc);
    vars.push(Var {
        id: VarId(n),
        ty: hidden,
    })?;
    vars.push(Var {
        id: VarId(second),
        ty: text,
    })?;
    Ok(vars)
}

fn one_var(alloc: Global, hidden: TypeId, n: u64) -> Result<Vec<Var>, NoMemory>
    ensures value { IfOk result (λ vs. (ts : List Ty) → map (var_of ts) vs.items ≡ go.var_at n (tree_of ts hidden) ∷ []) }
{
    let mut vars = Vec::new(alloc);
    vars.push(Var {
        id: VarId(n),
        ty: hidden,
    })?;
    Ok(vars)
}

fn one_type(alloc: Global, text: TypeId) -> Result<Vec<TypeId>, NoMemory>
    ensures value { IfOk result (λ is. is.items ≡ text ∷ []) }
{
    let mut types = Vec::new(alloc);
    types.push(text)?;
    Ok(types)
}

// The statements of `Error`.
fn text_body(alloc: Global, hidden: TypeId, text: TypeId, n: u64) -> Result<Vec<CoreStmt>, NoMemory>
    ensures value { IfOk result (λ ss. (ts : List Ty) → map (stmt_view ts) ss.items ≡ core.return_ (core.expr (core.convert (tree_of ts hidden) (tree_of ts text) (core.read (tree_of ts hidden) (core.local_ n))) core.no_exprs) ∷ []) }
{
    match text_back(alloc, hidden, text, VarId(n)) {
        Ok(core) => one_stmt(alloc, core),
        Err(error) => Err(error),
    }
}

/// `Error`, which gives the value as a string.
pub fn error_function(alloc: Global, hidden: TypeId, text: TypeId, n: u64) -> Result<Func, NoMemory>
    ensures value { IfOk result (λ f. (ts : List Ty) → tree_of ts hidden ≡ known.hidden → tree_of ts text ≡ ty.str → func_view ts f ≡ go.error_function n) }
{
    let vars = both_vars(alloc, hidden, text, n)?;
    let results = one_type(alloc, text)?;
    match text_body(alloc, hidden, text, n) {
        Ok(stmts) => Ok(made(alloc, results, vars, stmts)),
        Err(error) => Err(error),
    }
}

/// `RuntimeError`, which does nothing.
pub fn runtime_function(alloc: Global, hidden: TypeId, n: u64) -> Result<Func, NoMemory>
    ensures value { IfOk result (λ f. (ts : List Ty) → tree_of ts hidden ≡ known.hidden → func_view ts f ≡ go.runtime_function n) }
{
    let vars = one_var(alloc, hidden, n)?;
    Ok(made(alloc, Vec::new(alloc), vars, Vec::new(alloc)))
}

/// Both, after the functions of the text; their variables have the next numbers.
pub fn hidden_functions(
    alloc: Global,
    funcs: &mut Vec<Func>,
    hidden: TypeId,
    text: TypeId,
    next_var: u64,
) -> Result<(), NoMemory>
    ensures value { OnOk result ((ts : List Ty) → tree_of ts hidden ≡ known.hidden → tree_of ts text ≡ ty.str → map (func_view ts) funcs.new.items ≡ map (func_view ts) funcs.old.items ++ go.error_function next_var ∷ go.runtime_function (next_var + 2) ∷ []) }
{
    let second = next(next_var)?;
    let third = next(second)?;
    match error_function(alloc, hidden, text, next_var) {
        Ok(f) => match and_func(funcs, f) {
            Ok(()) => match runtime_function(alloc, hidden, third) {
                Ok(g) => match and_func(funcs, g) {
                    Ok(()) => Ok(()),
                    Err(error) => Err(error),
                },
                Err(error) => Err(error),
            },
            Err(error) => Err(error),
        },
        Err(error) => Err(error),
    }
}
