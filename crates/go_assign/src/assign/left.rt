//! Left sides of assignments.
//!
//! Go, "Assignments". In these rows a variable or `_` can be assigned, also in parentheses.

ghost use Rattle.std.specs.Prelude.{◌≡◌, ◌∷◌, ◌++◌, ◌+◌, [], None, Some, OnOk, IfOk, IfSome, MatchOption, List, length, map, option_map, if◌then◌else◌};
ghost use Rattle.go_type.specs.Tree.{Ty};
ghost use Rattle.go_type.specs.Table.{size};
ghost use Rattle.go_core.specs.CoreView.{target_view};
ghost use Rattle.go_syntax.specs.View.{expr_view};
ghost use Rattle.go_typing.specs.Answer.{flaw};
ghost use Rattle.go_typing.specs.Env.{lookup};
ghost use Rattle.go_operands.specs.EnvView.{table_of};
ghost use Rattle.go_operands.specs.View.{decl_of};
ghost use Rattle.go_operands.specs.Within.{DeclaredBelow};
ghost use Rattle.go_calls.specs.Words.{types_of, names_of, scopes_of};
ghost use Rattle.go_typing.specs.Assign as go;
ghost use Rattle.go_typing.specs.Assign.{left_wrong};
ghost use Rattle.go_walk.specs.WalkView.{walk_outside, Keeps};
ghost use Rattle.go_expr.specs.Raw.{raw_view, RawBelow, Grows};
ghost use Rattle.go_assign.specs.Settled.{valued_view};
ghost use Rattle.go_assign.specs.Moves.{Stays};
ghost use Rattle.go_operands.specs.AnswerView.{flaw_view};
ghost use Rattle.go_operands.specs.Below.{AnswerBelow};
ghost use Rattle.go_assign.specs.LeftView.{left_view, lefts_view, lefts_of, LeftBelow, LeftsBelow, spot_of, refused_left, fitted};
ghost use Rattle.go_assign.specs.Assigning.{all_left};

use crate::assign::bare::{bare, bare_name};
use crate::valued::{Valued, fit_alone, fit_at, move_flaws};
use gj_base::{NoMemory, Place, Text};
use go_core::node::{GlobalId, VarId};
use go_core::statement::Target;
use go_expr::typed::{Raw, raw_in};
use go_operands::answers::answer::Flaw;
use go_operands::answers::rule::{and_flaw, is_known};
use go_operands::operands::part::{Part, gone_part};
use go_operands::scopes::{Declared, Env};
use go_syntax::tree::Expr;
use go_type::types::TypeId;
use go_walk::labels::blank::is_blank;
use go_walk::stmt_nodes::store::{blank, global, local};
use go_walk::walk::Walk;
use std::alloc::Global;

/// A left side.
#[derive(Drop)]
pub enum Left {
    Blank,
    Local(VarId, TypeId),
    Global(u64, TypeId),
    /// What can't be assigned, with all that is told of it.
    Wrong(Vec<Flaw>),
}

/// Left sides in order, where the last one is held first.
#[derive(Drop)]
pub struct Lefts {
    pub items: Vec<Left>,
}

// What can't be assigned: where it is typed it is told (85).
fn wrong(alloc: Global, env: &mut Env, e: &Expr) -> Result<Left, NoMemory>
    ensures view { IfOk result (λ l. left_view (types_of env.new) l ≡ go.left_declared (walk_outside env.new) (expr_view e.now) None) }
    ensures within { IfOk result (λ l. LeftBelow (size (table_of env.new)) l) }
    ensures grows { OnOk result (Grows env.old env.new) }
{
    match raw_in(alloc, env, e) {
        Ok(raw) => refused(alloc, env, raw),
        Err(error) => Err(error),
    }
}

// What is typed can't be assigned (85).
fn told_known(alloc: Global, flaws: &mut Vec<Flaw>, known: bool, at: Place) -> Result<(), NoMemory>
    ensures told { OnOk result (map flaw_view flaws.new.items ≡ map flaw_view flaws.old.items ++ (if known then flaw at 85 ∷ [] else [])) }
{
    if known {
        return and_flaw(alloc, flaws, at, 85);
    }
    Ok(())
}

fn refused(alloc: Global, env: &Env, raw: Raw) -> Result<Left, NoMemory>
    ensures view { IfOk result (λ l. left_view (types_of env.now) l ≡ refused_left (raw_view (types_of env.now) raw)) }
    ensures within { IfOk result (λ l. LeftBelow (size (table_of env.now)) l) }
{
    let _ = env;
    let Raw { part, flaws } = raw;
    let known = is_known(&part.answer);
    let place = part.place;
    gone_part(part);
    let mut flaws = flaws;
    match told_known(alloc, &mut flaws, known, place) {
        Ok(()) => Ok(Left::Wrong(flaws)),
        Err(error) => Err(error),
    }
}

// A variable of this name.
fn spot_in(env: &Env, name: &Text) -> Option<Left>
    ensures view { option_map (left_view (types_of env.now)) result ≡ spot_of (lookup name.now (scopes_of env.now)) }
    ensures within { IfSome result (LeftBelow (size (table_of env.now))) }
{
    match env.lookup(name.as_bytes()) {
        Some(what) => spot(env, what),
        None => None,
    }
}

fn spot(env: &Env, what: &Declared) -> Option<Left>
    requires within { DeclaredBelow (size (table_of env.now)) what.now }
    ensures view { option_map (left_view (types_of env.now)) result ≡ spot_of (Some (decl_of (types_of env.now) what.now)) }
    ensures within { IfSome result (LeftBelow (size (table_of env.now))) }
{
    let _ = env;
    match what {
        Declared::Var(id, ty) => Some(Left::Local(*id, *ty)),
        Declared::Global(number, ty) => Some(Left::Global(*number, *ty)),
        Declared::Const(_, _) => None,
        Declared::TypeName(_) => None,
        Declared::Func(_, _) => None,
        Declared::Import(_) => None,
        Declared::Builtin(_) => None,
        Declared::Nil => None,
        Declared::Refused(_) => None,
        Declared::Unknown => None,
    }
}

// A name that is not `_`.
#[tactic(auto, using(crate::proofs::LeftLemmas::spot_declared, crate::proofs::LeftLemmas::named_wrong, crate::proofs::WalkLemmas::grows_not))]
fn named(alloc: Global, env: &mut Env, e: &Expr, name: &Text) -> Result<Left, NoMemory>
    ensures view { IfOk result (λ l. left_view (types_of env.new) l ≡ go.left_declared (walk_outside env.new) (expr_view e.now) (lookup name.now (scopes_of env.new))) }
    ensures within { IfOk result (λ l. LeftBelow (size (table_of env.new)) l) }
    ensures grows { OnOk result (Grows env.old env.new) }
{
    match spot_in(env, name) {
        Some(left) => Ok(left),
        None => match wrong(alloc, env, e) {
            Ok(left) => Ok(left),
            Err(error) => Err(error),
        },
    }
}

/// A left side: a variable or `_`, also in parentheses. Anything else can't be assigned in these rows.
#[tactic(auto, using(crate::proofs::BareLemmas::left_is_blank, crate::proofs::BareLemmas::left_is_named, crate::proofs::BareLemmas::left_no_name, crate::proofs::WalkLemmas::grows_not))]
pub fn left_of(alloc: Global, env: &mut Env, e: &Expr) -> Result<Left, NoMemory>
    ensures view { IfOk result (λ l. left_view (types_of env.new) l ≡ go.left_of (walk_outside env.new) (expr_view e.now)) }
    ensures within { IfOk result (λ l. LeftBelow (size (table_of env.new)) l) }
    ensures grows { OnOk result (Grows env.old env.new) }
{
    let whole = bare(e);
    match bare_name(e) {
        Some(text) => {
            if is_blank(text) {
                return Ok(Left::Blank);
            }
            match named(alloc, env, whole, text) {
                Ok(left) => Ok(left),
                Err(error) => Err(error),
            }
        }
        None => match wrong(alloc, env, whole) {
            Ok(left) => Ok(left),
            Err(error) => Err(error),
        },
    }
}

// One more stands before the others.
#[tactic(auto, using(crate::proofs::LeftLemmas::before_view, crate::proofs::LeftLemmas::lefts_more))]
fn left_before(alloc: Global, env: &mut Env, e: &Expr, lefts: &mut Lefts) -> Result<(), NoMemory>
    requires within { LeftsBelow (size (table_of env.old)) lefts.old }
    ensures view { OnOk result (lefts_view (types_of env.new) lefts.new ≡ go.left_of (walk_outside env.new) (expr_view e.now) ∷ lefts_view (types_of env.old) lefts.old) }
    ensures within { OnOk result (LeftsBelow (size (table_of env.new)) lefts.new) }
    ensures grows { OnOk result (Grows env.old env.new) }
{
    let left = left_of(alloc, env, e)?;
    lefts.items.push(left)?;
    Ok(())
}

// From the last one to the first.
#[tactic(auto, using(crate::proofs::LeftLemmas::fill_left, crate::proofs::WalkLemmas::grows_on, crate::proofs::WalkLemmas::grows_not))]
fn lefts_of(alloc: Global, env: &mut Env, es: &[Expr]) -> Result<Lefts, NoMemory>
    ensures view { IfOk result (λ ls. lefts_view (types_of env.new) ls ≡ lefts_of (walk_outside env.new) (map expr_view es.now)) }
    ensures within { IfOk result (λ ls. LeftsBelow (size (table_of env.new)) ls) }
    ensures grows { OnOk result (Grows env.old env.new) }
{
    let mut lefts = Lefts {
        items: Vec::new(alloc),
    };
    let mut left = es.len();
    while left > 0 {
        left -= 1;
        left_before(alloc, env, &es[left], &mut lefts)?;
    }
    Ok(lefts)
}

/// Left sides, in order.
#[tactic(auto, using(crate::proofs::LeftLemmas::lefts_outside, crate::proofs::WalkLemmas::stays_grown))]
pub fn lefts_in(walk: &mut Walk, es: &[Expr]) -> Result<Lefts, NoMemory>
    ensures view { IfOk result (λ ls. lefts_view (types_of walk.new.env) ls ≡ lefts_of (walk_outside walk.old.env) (map expr_view es.now)) }
    ensures within { IfOk result (λ ls. LeftsBelow (size (table_of walk.new.env)) ls) }
    ensures stays { OnOk result (Stays walk.old walk.new) }
{
    let alloc = *walk.used.allocator();
    match lefts_of(alloc, &mut walk.env, es) {
        Ok(lefts) => Ok(lefts),
        Err(error) => Err(error),
    }
}

/// The next one is taken away, if there is one.
#[tactic(auto, using(crate::proofs::LeftLemmas::next_view, crate::proofs::LeftLemmas::next_count))]
pub fn next_left(env: &Env, lefts: &mut Lefts) -> Option<Left>
    requires within { LeftsBelow (size (table_of env.now)) lefts.old }
    ensures view { MatchOption result (lefts_view (types_of env.now) lefts.old ≡ []) (λ l. lefts_view (types_of env.now) lefts.old ≡ left_view (types_of env.now) l ∷ lefts_view (types_of env.now) lefts.new) }
    ensures within { LeftsBelow (size (table_of env.now)) lefts.new }
    ensures left { IfSome result (LeftBelow (size (table_of env.now))) }
    ensures count { MatchOption result (length lefts.old.items.items ≡ 0) (λ l. length lefts.new.items.items + 1 ≡ length lefts.old.items.items) }
{
    let _ = env;
    lefts.items.pop()
}

/// Whether it can be assigned.
pub fn is_left(left: &Left) -> bool
    ensures value { (ts : List Ty) → result ≡ go.is_left (left_view ts left.now) }
{
    match left {
        Left::Blank => true,
        Left::Local(_, _) => true,
        Left::Global(_, _) => true,
        Left::Wrong(_) => false,
    }
}

/// Whether all can be assigned.
#[tactic(auto, using(crate::proofs::LeftLemmas::left_step, crate::proofs::LeftLemmas::left_stop, crate::proofs::LeftLemmas::left_end))]
pub fn all_left(lefts: &Lefts) -> bool
    ensures value { (ts : List Ty) → result ≡ all_left (lefts_view ts lefts.now) }
{
    for left in &lefts.items {
        if !is_left(left) {
            return false;
        }
    }
    true
}

/// What is assigned, in the core.
#[tactic(auto, using(crate::proofs::LeftLemmas::local_target, crate::proofs::LeftLemmas::global_target))]
pub fn target_of(alloc: Global, env: &Env, left: &Left) -> Result<Target, NoMemory>
    requires left { LeftBelow (size (table_of env.now)) left.now }
    ensures value { IfOk result (λ g. (ts : List Ty) → Keeps (table_of env.now) ts → target_view ts g ≡ go.target_of (left_view (types_of env.now) left.now)) }
{
    let _ = env;
    match left {
        Left::Blank => Ok(blank()),
        Left::Local(id, ty) => local(alloc, *ty, *id),
        Left::Global(number, ty) => global(alloc, *ty, GlobalId(*number)),
        Left::Wrong(_) => Ok(blank()),
    }
}

/// What a left side takes of a value that is typed.
///
/// Go, "Assignments": `_` takes any typed value.
pub fn fitted(alloc: Global, env: &Env, left: Left, raw: Raw) -> Result<Valued, NoMemory>
    requires left { LeftBelow (size (table_of env.now)) left }
    requires within { RawBelow (size (table_of env.now)) raw }
    ensures view { IfOk result (λ v. valued_view (types_of env.now) v ≡ fitted (names_of env.now) (left_view (types_of env.now) left) (raw_view (types_of env.now) raw)) }
    ensures within { IfOk result (λ v. AnswerBelow (size (table_of env.now)) v.answer) }
{
    match left {
        Left::Blank => fit_alone(alloc, env, raw),
        Left::Local(_, ty) => fit_at(alloc, env, ty, raw),
        Left::Global(_, ty) => fit_at(alloc, env, ty, raw),
        Left::Wrong(flaws) => both_told(env, flaws, raw),
    }
}

// The faults of the left side, and then those of the value.
fn both_told(env: &Env, flaws: Vec<Flaw>, raw: Raw) -> Result<Valued, NoMemory>
    requires within { RawBelow (size (table_of env.now)) raw }
    ensures view { IfOk result (λ v. valued_view (types_of env.now) v ≡ fitted (names_of env.now) (left_wrong (map flaw_view flaws.items)) (raw_view (types_of env.now) raw)) }
    ensures within { IfOk result (λ v. AnswerBelow (size (table_of env.now)) v.answer) }
{
    let _ = env;
    let Raw { part, flaws: more } = raw;
    let mut flaws = flaws;
    match move_flaws(&mut flaws, more) {
        Ok(()) => {
            let Part {
                place: _place,
                answer,
            } = part;
            Ok(Valued { answer, flaws })
        }
        Err(error) => {
            gone_part(part);
            Err(error)
        }
    }
}
