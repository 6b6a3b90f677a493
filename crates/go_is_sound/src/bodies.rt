//! Bodies of functions and initialisers, each looked at by a judge.
//!
//! Go, "Blocks", "Declarations and scope".

ghost use Rattle.std.specs.Prelude.{◌≡◌, ◌++◌, [], IfOk, IfSome, Some, true, map};
ghost use Rattle.go_type.specs.Tree.{no_tys};
ghost use Rattle.go_type.specs.Table.{places};
ghost use Rattle.go_core.specs.declared.program.Program.{Program};
ghost use Rattle.go_core.specs.CoreView.{expr_view, func_view, id_of, program_view, var_of};
ghost use Rattle.go_core.specs.Sound.{SoundExpr, SoundStmts};
ghost use Rattle.go_sound_nodes.specs.declared.judge.Judge.{Judge};
ghost use Rattle.go_sound_nodes.specs.Around.{around, trees_in};
ghost use Rattle.go_sound_nodes.specs.Known.{Knows};
ghost use Rattle.go_is_sound.specs.Facts.{Holds};
ghost use Rattle.go_is_sound.specs.Bodies.{AreCaptured, HasBody, IsCaptured, Pushes, head_around};

use crate::facts::Facts;
use gj_base::NoMemory;
use go_core::node::{CoreExpr, Var, VarId};
use go_core::program::{Func, Program};
use go_sound_nodes::judge::Judge;
use go_sound_nodes::round::Round;
use go_sound_parts::lists::first_type;
use go_type::types::TypeId;
use std::alloc::Global;

// A variable by its number.
fn var_at(facts: &Facts, v: VarId) -> Option<Var>
    ensures is { (p : Program) → Holds p facts.now → IfSome result (λ x. IsCaptured p v.0 x) }
{
    match first_type(facts.vars.as_slice(), v) {
        Some(ty) => Some(Var { id: v, ty }),
        None => None,
    }
}

fn push_captured(vars: &mut Vec<Var>, facts: &Facts, v: VarId) -> Result<bool, NoMemory>
    ensures is { (p : Program) → Holds p facts.now → IfOk result (λ b. b ≡ true → Pushes p v.0 vars.old.items vars.new.items) }
{
    match var_at(facts, v) {
        Some(x) => {
            vars.push(x)?;
            Ok(true)
        }
        None => Ok(false),
    }
}

// The captured variables, with their types; nothing where one isn't known.
fn captured_of(alloc: Global, facts: &Facts, f: &Func) -> Result<Option<Vec<Var>>, NoMemory>
    ensures is { (p : Program) → Holds p facts.now → IfOk result (λ o. IfSome o (λ vs. AreCaptured p (map id_of f.now.captured.items.items) vs.items)) }
{
    let mut vars = Vec::new(alloc);
    for v in &f.captured.items {
        if !push_captured(&mut vars, facts, *v)? {
            return Ok(None);
        }
    }
    Ok(Some(vars))
}

// The judge of what may declare these variables, the first of them at this place among all.
fn judge_of<'a>(
    alloc: Global,
    facts: &'a Facts,
    program: &'a Program,
    own: &'a [Var],
    first: usize,
    results: &'a [TypeId],
) -> Judge<'a>
    ensures knows { Holds program.now facts.now → Knows result }
    ensures program { result.program.now ≡ program.now }
    ensures declarable { result.declarable.now ≡ own.now }
    ensures results { result.results.now ≡ results.now }
{
    Judge {
        program,
        alloc,
        rows: &facts.rows,
        is_method: facts.is_method.as_slice(),
        has_rows: facts.has_rows.as_slice(),
        measures: facts.measures.as_slice(),
        declarable: own,
        places: facts.places.as_slice(),
        first,
        results,
    }
}

// What stands round a body: the variables of the head, and those that are captured.
fn head_round<'a>(vars: &'a [Var], captured: &'a [Var]) -> Round<'a>
    ensures is { (j : Judge) → around j result ≡ head_around (trees_in j) vars.now captured.now j.declarable.now j.results.now }
{
    Round::Head { vars, captured }
}

// Whether the body of a function is sound, with these captured variables.
fn body_with(
    alloc: Global,
    facts: &Facts,
    p: &Program,
    f: &Func,
    head: &[Var],
    own: &[Var],
    captured: &[Var],
    first: usize,
) -> Result<bool, NoMemory>
    ensures is { let ts = places p.now.types in let g = func_view ts f.now in Holds p.now facts.now → IfOk result (λ b. b ≡ true → SoundStmts (program_view p.now) (record { vars = map (var_of ts) head.now ++ map (var_of ts) captured.now; declarable = map (var_of ts) own.now; results = g.results; breaks = []; continues = [] }) g.body) }
{
    let judge = judge_of(alloc, facts, p, own, first, f.sig.results.as_slice());
    let round = head_round(head, captured);
    judge.stmts(&round, &f.body)
}

/// Whether the body of a function is sound whose variables are those of its head and its own ones,
/// the first of these at this place among all.
pub fn body_is_sound(
    alloc: Global,
    facts: &Facts,
    p: &Program,
    f: &Func,
    head: &[Var],
    own: &[Var],
    first: usize,
) -> Result<bool, NoMemory>
    ensures is { Holds p.now facts.now → IfOk result (λ b. b ≡ true → HasBody p.now f.now (map (var_of (places p.now.types)) head.now) (map (var_of (places p.now.types)) own.now)) }
{
    match captured_of(alloc, facts, f)? {
        Some(captured) => body_with(alloc, facts, p, f, head, own, captured.as_slice(), first),
        None => Ok(false),
    }
}

/// Whether an initialiser is sound that may declare these variables, the first of them at this place
/// among all.
pub fn expr_is_sound(
    alloc: Global,
    facts: &Facts,
    p: &Program,
    e: &CoreExpr,
    own: &[Var],
    first: usize,
) -> bool
    ensures is { let ts = places p.now.types in Holds p.now facts.now → result ≡ true → SoundExpr (program_view p.now) (record { vars = []; declarable = map (var_of ts) own.now; results = no_tys; breaks = []; continues = [] }) (expr_view ts e.now) }
{
    let judge = judge_of(alloc, facts, p, own, first, &[]);
    let round = head_round(&[], &[]);
    judge.expr(&round, e)
}
