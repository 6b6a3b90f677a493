//! Two operands of which the first has no type yet.
//!
//! Go, "Operators", "Comparison operators". Own: an untyped number whose type is pending beside what is
//! no number has its default type.

ghost use Rattle.std.specs.Prelude.{◌≡◌, ◌<◌, ◌++◌, ◌∷◌, [], IfOk, List, ℕ, map, if◌then◌else◌};
ghost use Rattle.go_type.specs.Tree.{Ty};
ghost use Rattle.go_type.specs.Table.{places, names, size};
ghost use Rattle.go_core.specs.CoreView.{expr_view};
ghost use Rattle.go_typing.specs.Answer.{flaw, fixed};
ghost use Rattle.go_typing.specs.Operand.{basis_of, later_basis, is_number, constant_operand, truth_operand, pending_operand, nil_operand};
ghost use Rattle.go_typing.specs.Binary.{differ, numbers, unfit, unless_unfit, pending_differs, two_constants, truth_beside, beside_truth, untyped_beside};
ghost use Rattle.go_operands.specs.AnswerView.{flaw_view, operand_view, pending_view};
ghost use Rattle.go_operands.specs.RulesReady.{HasPredeclared};
ghost use Rattle.go_operands.specs.Below.{OperandBelow};
ghost use Rattle.go_binary.specs.MatchView.{match_view, MatchBelow};

use crate::matched::beside::left_passed;
use crate::matched::sides::Match;
use gj_base::{NoMemory, Place};
use go_const::Const;
use go_core::node::CoreExpr;
use go_operands::answers::answer::{Flaw, Flaws, Operand, Pending};
use go_operands::answers::constant::constant_at;
use go_operands::answers::gone::gone_pending;
use go_operands::answers::number::fixed;
use go_operands::answers::pending::pending_flaws;
use go_operands::answers::rule::{and_flaw, one_flaw};
use go_operands::nodes::gone::gone_expr;
use go_operands::rules::constant::{basis_of, is_number, later_basis};
use go_operands::rules::kind::{bool_type, default_type};
use go_type::TypeTable;
use go_type::types::Basis;
use std::alloc::Global;

// ---- beside what gives no type

fn unfit_or_differ(items: Vec<Flaw>) -> Match
    ensures view { (ts : List Ty) → match_view ts result ≡ unless_unfit (map flaw_view items.items) differ }
    ensures within { (n : ℕ) → MatchBelow n result }
{
    if items.is_empty() {
        return Match::Differ;
    }
    Match::Unfit(Flaws { items })
}

fn pending_differs(
    alloc: Global,
    table: &TypeTable,
    p: Pending,
    basis: Basis,
) -> Result<Match, NoMemory>
    requires { HasPredeclared table.now }
    ensures view { IfOk result (λ m. match_view (places table.now) m ≡ pending_differs (names table.now) (pending_view (places table.now) p) basis) }
    ensures within { IfOk result (λ m. MatchBelow (size table.now) m) }
{
    let flaws = pending_flaws(alloc, table, default_type(table, basis), &p);
    gone_pending(p);
    match flaws {
        Ok(flaws) => Ok(unfit_or_differ(flaws)),
        Err(error) => Err(error),
    }
}

// `nil` has no type here.
fn no_type(alloc: Global, at: Place) -> Result<Match, NoMemory>
    ensures view { IfOk result (λ m. (ts : List Ty) → match_view ts m ≡ unfit (flaw at 73) []) }
    ensures within { IfOk result (λ m. (n : ℕ) → MatchBelow n m) }
{
    let flaws = one_flaw(alloc, at, 73)?;
    Ok(Match::Unfit(flaws))
}

fn no_types(alloc: Global, p: Place, q: Place) -> Result<Match, NoMemory>
    ensures view { IfOk result (λ m. (ts : List Ty) → match_view ts m ≡ unfit (flaw p 73) (flaw q 73 ∷ [])) }
    ensures within { IfOk result (λ m. (n : ℕ) → MatchBelow n m) }
{
    let mut items = Vec::new(alloc);
    and_flaw(alloc, &mut items, p, 73)?;
    and_flaw(alloc, &mut items, q, 73)?;
    Ok(Match::Unfit(Flaws { items }))
}

fn two_constants(k: Const, l: Const) -> Match
    ensures view { (ts : List Ty) → match_view ts result ≡ two_constants k l }
    ensures within { (n : ℕ) → MatchBelow n result }
{
    match k {
        Const::Bool(b) => match l {
            Const::Bool(d) => Match::Constants(Const::Bool(b), Const::Bool(d)),
            Const::Int(_) | Const::Rune(_) | Const::Text(_) => Match::Differ,
        },
        Const::Text(s) => match l {
            Const::Text(u) => Match::Constants(Const::Text(s), Const::Text(u)),
            Const::Int(_) | Const::Rune(_) | Const::Bool(_) => Match::Differ,
        },
        Const::Int(z) => {
            if is_number(&l) {
                return Match::Constants(Const::Int(z), l);
            }
            Match::Differ
        }
        Const::Rune(z) => {
            if is_number(&l) {
                return Match::Constants(Const::Rune(z), l);
            }
            Match::Differ
        }
    }
}

fn truth_beside(alloc: Global, table: &TypeTable, k: Const, d: CoreExpr) -> Result<Match, NoMemory>
    requires { HasPredeclared table.now }
    ensures view { IfOk result (λ m. match_view (places table.now) m ≡ truth_beside k (expr_view (places table.now) d)) }
    ensures within { IfOk result (λ m. MatchBelow (size table.now) m) }
{
    match k {
        Const::Bool(b) => match constant_at(alloc, bool_type(table), &Const::Bool(b)) {
            Ok(c) => Ok(Match::Truths(c, d)),
            Err(error) => {
                gone_expr(d);
                Err(error)
            }
        },
        Const::Int(_) | Const::Rune(_) | Const::Text(_) => {
            gone_expr(d);
            Ok(Match::Differ)
        }
    }
}

fn beside_truth(alloc: Global, table: &TypeTable, c: CoreExpr, k: Const) -> Result<Match, NoMemory>
    requires { HasPredeclared table.now }
    ensures view { IfOk result (λ m. match_view (places table.now) m ≡ beside_truth (expr_view (places table.now) c) k) }
    ensures within { IfOk result (λ m. MatchBelow (size table.now) m) }
{
    match k {
        Const::Bool(b) => match constant_at(alloc, bool_type(table), &Const::Bool(b)) {
            Ok(d) => Ok(Match::Truths(c, d)),
            Err(error) => {
                gone_expr(c);
                Err(error)
            }
        },
        Const::Int(_) | Const::Rune(_) | Const::Text(_) => {
            gone_expr(c);
            Ok(Match::Differ)
        }
    }
}

// ---- numbers whose type is pending

// A constant that stands at `p`, before a number.
fn constant_first(
    alloc: Global,
    table: &TypeTable,
    p: Place,
    k: Const,
    r: Pending,
    basis: Basis,
) -> Result<Match, NoMemory>
    ensures view { IfOk result (λ m. match_view (places table.now) m ≡ numbers (fixed p k) (pending_view (places table.now) r) basis) }
    ensures within { IfOk result (λ m. MatchBelow (size table.now) m) }
{
    let _ = table;
    match fixed(alloc, p, k) {
        Ok(n) => Ok(Match::Numbers(n, r, basis)),
        Err(error) => {
            gone_pending(r);
            Err(error)
        }
    }
}

// A constant that stands at `q`, after a number.
fn constant_last(
    alloc: Global,
    table: &TypeTable,
    n: Pending,
    basis: Basis,
    q: Place,
    l: Const,
) -> Result<Match, NoMemory>
    ensures view { IfOk result (λ m. match_view (places table.now) m ≡ numbers (pending_view (places table.now) n) (fixed q l) basis) }
    ensures within { IfOk result (λ m. MatchBelow (size table.now) m) }
{
    let _ = table;
    match fixed(alloc, q, l) {
        Ok(r) => Ok(Match::Numbers(n, r, basis)),
        Err(error) => {
            gone_pending(n);
            Err(error)
        }
    }
}

// The constant stands at `p`.
fn constant_and_number(
    alloc: Global,
    table: &TypeTable,
    p: Place,
    k: Const,
    r: Pending,
    basis: Basis,
) -> Result<Match, NoMemory>
    requires { HasPredeclared table.now }
    ensures view { IfOk result (λ m. match_view (places table.now) m ≡ (if is_number k then numbers (fixed p k) (pending_view (places table.now) r) (later_basis (basis_of k) basis) else pending_differs (names table.now) (pending_view (places table.now) r) basis)) }
    ensures within { IfOk result (λ m. MatchBelow (size table.now) m) }
{
    if !is_number(&k) {
        return pending_differs(alloc, table, r, basis);
    }
    let later = later_basis(basis_of(&k), basis);
    constant_first(alloc, table, p, k, r, later)
}

// The constant stands at `q`.
fn number_and_constant(
    alloc: Global,
    table: &TypeTable,
    n: Pending,
    basis: Basis,
    q: Place,
    l: Const,
) -> Result<Match, NoMemory>
    requires { HasPredeclared table.now }
    ensures view { IfOk result (λ m. match_view (places table.now) m ≡ (if is_number l then numbers (pending_view (places table.now) n) (fixed q l) (later_basis basis (basis_of l)) else pending_differs (names table.now) (pending_view (places table.now) n) basis)) }
    ensures within { IfOk result (λ m. MatchBelow (size table.now) m) }
{
    if !is_number(&l) {
        return pending_differs(alloc, table, n, basis);
    }
    let later = later_basis(basis, basis_of(&l));
    constant_last(alloc, table, n, later, q, l)
}

// ---- the first operand by its form

/// A constant that stands at `p`, and what stands beside it.
pub fn constant(
    alloc: Global,
    table: &TypeTable,
    p: Place,
    k: Const,
    q: Place,
    y: Box<Operand>,
) -> Result<Match, NoMemory>
    requires table { HasPredeclared table.now }
    requires right { OperandBelow (size table.now) y.value }
    ensures view { IfOk result (λ m. match_view (places table.now) m ≡ untyped_beside (names table.now) p (constant_operand k) q (operand_view (places table.now) y.value)) }
    ensures within { IfOk result (λ m. MatchBelow (size table.now) m) }
{
    match Box::into_inner(y) {
        Operand::Typed(right) => left_passed(alloc, table, p, Operand::Constant(k), right),
        Operand::Constant(l) => Ok(two_constants(k, l)),
        Operand::Truth(d) => truth_beside(alloc, table, k, d),
        Operand::Pending(r, basis) => constant_and_number(alloc, table, p, k, r, basis),
        Operand::Nil => no_type(alloc, q),
    }
}

/// An untyped boolean that is no constant, and what stands beside it.
pub fn truth(
    alloc: Global,
    table: &TypeTable,
    p: Place,
    c: CoreExpr,
    q: Place,
    y: Box<Operand>,
) -> Result<Match, NoMemory>
    requires table { HasPredeclared table.now }
    requires right { OperandBelow (size table.now) y.value }
    ensures view { IfOk result (λ m. match_view (places table.now) m ≡ untyped_beside (names table.now) p (truth_operand (expr_view (places table.now) c)) q (operand_view (places table.now) y.value)) }
    ensures within { IfOk result (λ m. MatchBelow (size table.now) m) }
{
    match Box::into_inner(y) {
        Operand::Typed(right) => left_passed(alloc, table, p, Operand::Truth(c), right),
        Operand::Constant(l) => beside_truth(alloc, table, c, l),
        Operand::Truth(d) => Ok(Match::Truths(c, d)),
        Operand::Pending(r, basis) => {
            gone_expr(c);
            pending_differs(alloc, table, r, basis)
        }
        Operand::Nil => {
            gone_expr(c);
            no_type(alloc, q)
        }
    }
}

/// An untyped number whose type is pending, and what stands beside it.
pub fn number(
    alloc: Global,
    table: &TypeTable,
    p: Place,
    n: Pending,
    basis: Basis,
    q: Place,
    y: Box<Operand>,
) -> Result<Match, NoMemory>
    requires table { HasPredeclared table.now }
    requires right { OperandBelow (size table.now) y.value }
    ensures view { IfOk result (λ m. match_view (places table.now) m ≡ untyped_beside (names table.now) p (pending_operand (pending_view (places table.now) n) basis) q (operand_view (places table.now) y.value)) }
    ensures within { IfOk result (λ m. MatchBelow (size table.now) m) }
{
    match Box::into_inner(y) {
        Operand::Typed(right) => {
            let x = Operand::Pending(n, basis);
            left_passed(alloc, table, p, x, right)
        }
        Operand::Constant(l) => { number_and_constant(alloc, table, n, basis, q, l) }
        Operand::Truth(d) => {
            gone_expr(d);
            pending_differs(alloc, table, n, basis)
        }
        Operand::Pending(r, other) => {
            let later = later_basis(basis, other);
            Ok(Match::Numbers(n, r, later))
        }
        Operand::Nil => {
            gone_pending(n);
            no_type(alloc, q)
        }
    }
}

/// `nil`, and what stands beside it.
pub fn nil(
    alloc: Global,
    table: &TypeTable,
    p: Place,
    q: Place,
    y: Box<Operand>,
) -> Result<Match, NoMemory>
    requires table { HasPredeclared table.now }
    requires right { OperandBelow (size table.now) y.value }
    ensures view { IfOk result (λ m. match_view (places table.now) m ≡ untyped_beside (names table.now) p nil_operand q (operand_view (places table.now) y.value)) }
    ensures within { IfOk result (λ m. MatchBelow (size table.now) m) }
{
    match Box::into_inner(y) {
        Operand::Typed(right) => left_passed(alloc, table, p, Operand::Nil, right),
        Operand::Constant(_l) => no_type(alloc, p),
        Operand::Truth(d) => {
            gone_expr(d);
            no_type(alloc, p)
        }
        Operand::Pending(r, _basis) => {
            gone_pending(r);
            no_type(alloc, p)
        }
        Operand::Nil => no_types(alloc, p, q),
    }
}
