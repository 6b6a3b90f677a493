//! Functions: what their variables begin with, their bodies, and how these end.
//!
//! Go, "Function declarations", "Method declarations", "Terminating statements".

ghost use Rattle.std.specs.Prelude.{◌≡◌, ◌++◌, ◌-◌, ℕ, List, [], IfOk, IfSome, Some, true, false, map, length, take, All};
ghost use Rattle.std.specs.List.{AllByRecursion};
ghost use Rattle.go_type.specs.Tree.{Ty};
ghost use Rattle.go_type.specs.Levels.{trees_of};
ghost use Rattle.go_type.specs.Table.{places};
ghost use Rattle.go_core.specs.declared.program.Program.{Program};
ghost use Rattle.go_core.specs.CoreView.{func_view, program_view, var_of};
ghost use Rattle.go_core.specs.TypeOf.{listed_types};
ghost use Rattle.go_core.specs.SoundNode.{IsGoodType, IsRowOf};
ghost use Rattle.go_core.specs.SoundProgram.{IsPlainFunc, SoundFunc, Terminates};
ghost use Rattle.go_is_sound.specs.Facts.{Holds};
ghost use Rattle.go_is_sound.specs.Functions.{Begins, IsBare, IsFuncOf, IsKind, OwnFrom};

use crate::bodies::body_is_sound;
use crate::ends::ends_terminating;
use crate::facts::Facts;
use gj_base::NoMemory;
use go_core::node::Var;
use go_core::program::{Func, Program};
use go_core::tree::FuncId;
use go_sound_parts::methods::{func_at, row_at};
use go_type::types::TypeId;
use std::alloc::Global;

// ---- what the variables begin with

// The variables after those of these types, which are at the front.
fn after_types<'a>(vars: &'a [Var], types: &[TypeId]) -> Option<&'a [Var]>
    ensures is { IfSome result (λ rest. (ts : List Ty) → Begins (map (var_of ts) vars.now) (map (var_of ts) rest.now) (listed_types (trees_of ts types.now))) }
{
    match types.split_first() {
        Some((t, others)) => match vars.split_first() {
            Some((v, rest)) => if v.ty.0 == t.0 {
                after_types(rest, others)
            } else {
                None
            },
            None => None,
        },
        None => Some(vars),
    }
}

// The variables after the receiver of a method.
fn after_receiver(vars: &[Var], is_method: bool) -> Option<&[Var]>
    ensures is { IfSome result (λ rest. (ts : List Ty) → OwnFrom is_method (map (var_of ts) vars.now) (map (var_of ts) rest.now) []) }
{
    if !is_method {
        return Some(vars);
    }
    match vars.split_first() {
        Some((_first, rest)) => Some(rest),
        None => None,
    }
}

// The variables of a body: those after the receiver of a method, the parameters and the results.
fn own_vars<'a>(f: &'a Func, is_method: bool) -> Option<&'a [Var]>
    ensures is { IfSome result (λ rest. (ts : List Ty) → OwnFrom is_method (func_view ts f.now).vars (map (var_of ts) rest.now) (listed_types (func_view ts f.now).params ++ listed_types (func_view ts f.now).results)) }
{
    match after_receiver(f.vars.items.as_slice(), is_method) {
        Some(rest) => match after_types(rest, f.sig.params.as_slice()) {
            Some(others) => match after_types(others, f.sig.results.as_slice()) {
                Some(own) => Some(own),
                None => None,
            },
            None => None,
        },
        None => None,
    }
}

// ---- whether it is a method

// Whether the row at a place leads to a function.
fn leads_at(p: &Program, at: u64, id: FuncId) -> bool
    ensures is { result ≡ true → IsRowOf (program_view p.now) id.0 }
{
    match row_at(p, at) {
        Some(row) => row.func.0 == id.0,
        None => false,
    }
}

fn has_row(facts: &Facts, p: &Program, id: FuncId) -> bool
    ensures is { result ≡ true → IsRowOf (program_view p.now) id.0 }
{
    match facts.leads.as_slice().get(id.0 as usize) {
        Some(at) => leads_at(p, *at, id),
        None => false,
    }
}

/// Whether no row leads to a function.
pub fn is_plain(facts: &Facts, id: FuncId) -> bool
    ensures is { (p : Program) → Holds p facts.now → result ≡ true → IsRowOf (program_view p) id.0 → ⊥ }
{
    match facts.is_method.as_slice().get(id.0 as usize) {
        Some(found) => !*found,
        None => false,
    }
}

// Whether a function is a method, where that is known.
fn kind_of(facts: &Facts, p: &Program, id: FuncId) -> Option<bool>
    ensures is { Holds p.now facts.now → IfSome result (λ b. IsKind p.now id.0 b) }
{
    if is_plain(facts, id) {
        return Some(false);
    }
    if has_row(facts, p, id) {
        return Some(true);
    }
    None
}

// ---- the whole function

// Whether a body ends by a terminating statement where the function has results.
fn ends(p: &Program, f: &Func) -> bool
    ensures is { result ≡ true → Terminates (func_view (places p.now.types) f.now) }
{
    if f.sig.results.as_slice().is_empty() {
        return true;
    }
    ends_terminating(&p.types, &f.body)
}

fn is_good_var(p: &Program, v: Var) -> bool
    ensures is { let q = program_view p.now in All (IsGoodType q) q.types → result ≡ true → IsGoodType q (var_of (places p.now.types) v).type_ }
{
    v.ty.0 < p.types.len()
}

fn all_good_vars(p: &Program, f: &Func) -> bool
    ensures is { let q = program_view p.now in All (IsGoodType q) q.types → result ≡ true → AllByRecursion (λ v. IsGoodType q (var_of (places p.now.types) v).type_) f.now.vars.items.items }
{
    for v in &f.vars.items {
        if !is_good_var(p, *v) {
            return false;
        }
    }
    true
}

fn are_good_vars(p: &Program, f: &Func) -> bool
    ensures is { let q = program_view p.now in All (IsGoodType q) q.types → result ≡ true → All (λ v. IsGoodType q v.type_) (func_view (places p.now.types) f.now).vars }
{
    all_good_vars(p, f)
}

// The variables before the own ones.
fn head_of<'a>(f: &'a Func, own: &[Var]) -> &'a [Var]
    ensures is { result.now ≡ take (length f.now.vars.items.items - length own.now) f.now.vars.items.items }
{
    let vars = f.vars.items.as_slice();
    let count = vars.len().saturating_sub(own.len());
    &vars[..count]
}

// A function whose own variables are these, and whose variables stand from a place on among all.
fn func_of_own(
    alloc: Global,
    facts: &Facts,
    p: &Program,
    f: &Func,
    own: &[Var],
    from: usize,
) -> Result<bool, NoMemory>
    ensures is { Holds p.now facts.now → IfOk result (λ b. b ≡ true → IsFuncOf p.now f.now own.now) }
{
    if !are_good_vars(p, f) || !ends(p, f) {
        return Ok(false);
    }
    let head = head_of(f, own);
    body_is_sound(
        alloc,
        facts,
        p,
        f,
        head,
        own,
        from.saturating_add(head.len()),
    )
}

// A function whose kind is known.
fn func_of_kind(
    alloc: Global,
    facts: &Facts,
    p: &Program,
    f: &Func,
    is_method: bool,
    from: usize,
) -> Result<bool, NoMemory>
    ensures is { Holds p.now facts.now → IfOk result (λ b. b ≡ true → (k : ℕ) → IsKind p.now k is_method → SoundFunc (program_view p.now) k (func_view (places p.now.types) f.now)) }
{
    match own_vars(f, is_method) {
        Some(own) => func_of_own(alloc, facts, p, f, own, from),
        None => Ok(false),
    }
}

/// Whether a function is sound whose variables stand from a place on among all.
pub fn func_is_sound(
    alloc: Global,
    facts: &Facts,
    p: &Program,
    id: FuncId,
    f: &Func,
    from: usize,
) -> Result<bool, NoMemory>
    ensures is { Holds p.now facts.now → IfOk result (λ b. b ≡ true → SoundFunc (program_view p.now) id.0 (func_view (places p.now.types) f.now)) }
{
    match kind_of(facts, p, id) {
        Some(is_method) => func_of_kind(alloc, facts, p, f, is_method, from),
        None => Ok(false),
    }
}

fn is_bare(f: &Func) -> bool
    ensures is { result ≡ true → (ts : List Ty) → IsBare (func_view ts f.now) }
{
    f.sig.params.as_slice().is_empty()
        && f.sig.results.as_slice().is_empty()
        && f.captured.items.is_empty()
}

/// Whether it is a function without parameters and results, as `main` and `init` are.
pub fn is_plain_func(facts: &Facts, p: &Program, id: FuncId) -> bool
    ensures is { Holds p.now facts.now → result ≡ true → IsPlainFunc (program_view p.now) id.0 }
{
    match func_at(p, id) {
        Some(f) => is_bare(f) && is_plain(facts, id),
        None => false,
    }
}
