//! The lists in frames, each with one more at its end.

ghost use Rattle.std.specs.Prelude.{◌≡◌, IfOk, map};
ghost use Rattle.go_syntax.specs.Tree as t;
ghost use Rattle.go_grammar.specs.Nodes as nodes;
ghost use Rattle.go_syntax.specs.View.{expr_view, exprs_of, stmt_view, stmts_of, clause_view, comm_view, value_spec_view, type_spec_view};
ghost use Rattle.go_frames.specs.FrameView.{exprs_in, stmts_in, expr_perhaps, stmt_perhaps};

use crate::ends::list::{and_clause, and_comm, and_expr, and_stmt, and_type_spec, and_value_spec};
use crate::frames::form::{clause, comm, type_spec, value_spec};
use gj_base::{NoMemory, Place};
use go_syntax::tree::{Clause, Comm, Expr, Name, Stmt, TypeSpec, ValueSpec};

/// Expressions.
#[tactic(auto, using(std::proofs::lemmas::List::map_push))]
pub fn with_expr(list: Vec<Expr>, e: Expr) -> Result<Vec<Expr>, NoMemory>
    ensures value { IfOk result (λ all. exprs_in all.items ≡ nodes.and (exprs_in list.items) (expr_view e)) }
{
    and_expr(list, e)
}

/// Statements.
#[tactic(auto, using(std::proofs::lemmas::List::map_push))]
pub fn with_stmt(list: Vec<Stmt>, s: Stmt) -> Result<Vec<Stmt>, NoMemory>
    ensures value { IfOk result (λ all. stmts_in all.items ≡ nodes.and (stmts_in list.items) (stmt_view s)) }
{
    and_stmt(list, s)
}

/// A clause of a `switch`.
#[tactic(auto, using(crate::proofs::BeginsListLemmas::more_views))]
pub fn with_clause(
    list: Vec<Clause>,
    place: Place,
    exprs: Vec<Expr>,
    body: Vec<Stmt>,
) -> Result<Vec<Clause>, NoMemory>
    ensures value { IfOk result (λ all. map clause_view all.items ≡ nodes.and (map clause_view list.items) (λ rest. t.MoreClauses place (exprs_of (exprs_in exprs.items)) (stmts_of (stmts_in body.items)) rest)) }
{
    let item = clause(place, exprs, body);
    and_clause(list, item)
}

/// A clause of a `select`.
#[tactic(auto, using(crate::proofs::BeginsListLemmas::more_views))]
pub fn with_comm(
    list: Vec<Comm>,
    place: Place,
    said: Option<Stmt>,
    body: Vec<Stmt>,
) -> Result<Vec<Comm>, NoMemory>
    ensures value { IfOk result (λ all. map comm_view all.items ≡ nodes.and (map comm_view list.items) (λ rest. t.MoreComms place (stmt_perhaps said) (stmts_of (stmts_in body.items)) rest)) }
{
    let item = comm(place, said, body);
    and_comm(list, item)
}

/// A Spec of constants or variables.
#[tactic(auto, using(crate::proofs::BeginsListLemmas::more_views))]
pub fn with_values(
    list: Vec<ValueSpec>,
    names: Vec<Name>,
    ty: Option<Expr>,
    values: Vec<Expr>,
) -> Result<Vec<ValueSpec>, NoMemory>
    ensures value { IfOk result (λ all. map value_spec_view all.items ≡ nodes.and (map value_spec_view list.items) (λ rest. t.MoreValues names.items (expr_perhaps ty) (exprs_of (exprs_in values.items)) rest)) }
{
    let item = value_spec(names, ty, values);
    and_value_spec(list, item)
}

/// A Spec of a type.
#[tactic(auto, using(crate::proofs::BeginsListLemmas::more_views))]
pub fn with_type(
    list: Vec<TypeSpec>,
    name: Name,
    alias: bool,
    ty: Expr,
) -> Result<Vec<TypeSpec>, NoMemory>
    ensures value { IfOk result (λ all. map type_spec_view all.items ≡ nodes.and (map type_spec_view list.items) (λ rest. t.MoreTypes name alias (expr_view ty) rest)) }
{
    let item = type_spec(name, alias, ty);
    and_type_spec(list, item)
}
