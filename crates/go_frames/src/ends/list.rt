//! Lists of trees with one more at their end.
//!
//! Each function stands at its own type, so that no crate above has to let such a list go.

ghost use Rattle.std.specs.Prelude.{◌≡◌, ◌∷◌, ◌++◌, [], IfOk};

use crate::frames::node::{and, only};
use gj_base::NoMemory;
use go_syntax::tree::{
    Clause, Comm, Decl, Elem, Expr, Field, Import, Member, Name, Param, Stmt, TypeSpec, ValueSpec,
};
use std::alloc::Global;

/// The list of one name.
pub fn only_name(alloc: Global, item: Name) -> Result<Vec<Name>, NoMemory>
    ensures value { IfOk result (λ all. all.items ≡ item ∷ []) }
{
    only(alloc, item)
}

/// The expressions with one more.
pub fn and_expr(list: Vec<Expr>, item: Expr) -> Result<Vec<Expr>, NoMemory>
    ensures value { IfOk result (λ all. all.items ≡ list.items ++ item ∷ []) }
{
    and(list, item)
}

/// The elements of a literal with one more.
pub fn and_elem(list: Vec<Elem>, item: Elem) -> Result<Vec<Elem>, NoMemory>
    ensures value { IfOk result (λ all. all.items ≡ list.items ++ item ∷ []) }
{
    and(list, item)
}

/// The parameters with one more.
pub fn and_param(list: Vec<Param>, item: Param) -> Result<Vec<Param>, NoMemory>
    ensures value { IfOk result (λ all. all.items ≡ list.items ++ item ∷ []) }
{
    and(list, item)
}

/// The fields with one more.
pub fn and_field(list: Vec<Field>, item: Field) -> Result<Vec<Field>, NoMemory>
    ensures value { IfOk result (λ all. all.items ≡ list.items ++ item ∷ []) }
{
    and(list, item)
}

/// The members of an interface with one more.
pub fn and_member(list: Vec<Member>, item: Member) -> Result<Vec<Member>, NoMemory>
    ensures value { IfOk result (λ all. all.items ≡ list.items ++ item ∷ []) }
{
    and(list, item)
}

/// The names with one more.
pub fn and_name(list: Vec<Name>, item: Name) -> Result<Vec<Name>, NoMemory>
    ensures value { IfOk result (λ all. all.items ≡ list.items ++ item ∷ []) }
{
    and(list, item)
}

/// The statements with one more.
pub fn and_stmt(list: Vec<Stmt>, item: Stmt) -> Result<Vec<Stmt>, NoMemory>
    ensures value { IfOk result (λ all. all.items ≡ list.items ++ item ∷ []) }
{
    and(list, item)
}

/// The clauses of a `switch` with one more.
pub fn and_clause(list: Vec<Clause>, item: Clause) -> Result<Vec<Clause>, NoMemory>
    ensures value { IfOk result (λ all. all.items ≡ list.items ++ item ∷ []) }
{
    and(list, item)
}

/// The clauses of a `select` with one more.
pub fn and_comm(list: Vec<Comm>, item: Comm) -> Result<Vec<Comm>, NoMemory>
    ensures value { IfOk result (λ all. all.items ≡ list.items ++ item ∷ []) }
{
    and(list, item)
}

/// The Specs of constants or variables with one more.
pub fn and_value_spec(list: Vec<ValueSpec>, item: ValueSpec) -> Result<Vec<ValueSpec>, NoMemory>
    ensures value { IfOk result (λ all. all.items ≡ list.items ++ item ∷ []) }
{
    and(list, item)
}

/// The Specs of types with one more.
pub fn and_type_spec(list: Vec<TypeSpec>, item: TypeSpec) -> Result<Vec<TypeSpec>, NoMemory>
    ensures value { IfOk result (λ all. all.items ≡ list.items ++ item ∷ []) }
{
    and(list, item)
}

/// The imports with one more.
pub fn and_import(list: Vec<Import>, item: Import) -> Result<Vec<Import>, NoMemory>
    ensures value { IfOk result (λ all. all.items ≡ list.items ++ item ∷ []) }
{
    and(list, item)
}

/// The declarations with one more.
pub fn and_decl(list: Vec<Decl>, item: Decl) -> Result<Vec<Decl>, NoMemory>
    ensures value { IfOk result (λ all. all.items ≡ list.items ++ item ∷ []) }
{
    and(list, item)
}
