//! What is told of the names on the left of `:=`.
//!
//! Go, "Short variable declarations".

ghost use Rattle.std.specs.Prelude.{◌≡◌, ◌∷◌, ◌++◌, ◌||◌, ℕ, [], List, OnOk, map, bytes_eq, if◌then◌else◌};
ghost use Rattle.go_type.specs.Tree.{Ty};
ghost use Rattle.go_syntax.specs.View.{expr_view, exprs_of};
ghost use Rattle.go_typing.specs.Answer.{flaw};
ghost use Rattle.go_operands.specs.AnswerView.{flaw_view};
ghost use Rattle.go_walk.specs.SetsHas.{has_name};
ghost use Rattle.go_typing.specs.Assign as go;
ghost use Rattle.go_typing.specs.Assign.{names_flaws};
ghost use Rattle.go_calls.specs.Words.{types_of};
ghost use Rattle.go_walk.specs.WalkView.{walk_outside};
ghost use Rattle.go_expr.specs.Raw.{raw_view, raws_view};
ghost use Rattle.go_assign.specs.Moves.{Stays};
ghost use Rattle.go_define.specs.FreshView.{freshes_view, plain_name};
ghost use Rattle.go_define.specs.DefineTold.{twice_told, no_name_told, name_told, seen_with, new_told};

use crate::define::fine::all_fine;
use crate::define::fresh::{Freshes, any_new, both_typed, names_typed, plain_name};
use gj_base::{NoMemory, Place, Text};
use go_assign::effects::{place_in, typed};
use go_assign::valued::move_flaws;
use go_expr::typed::{Raw, Raws};
use go_operands::answers::answer::Flaw;
use go_operands::answers::rule::{and_flaw, is_known};
use go_operands::operands::part::gone_part;
use go_operands::scopes::Env;
use go_syntax::tree::{Expr, Name};
use go_walk::labels::blank::is_blank;
use go_walk::labels::flaw::named_flaw;
use go_walk::sets::NameSet;
use go_walk::walk::Walk;

// A name that stands on the left before (82). `_` may stand there more than once.
#[tactic(auto, using(crate::proofs::NameLemmas::told_none))]
fn told_twice(flaws: &mut Vec<Flaw>, at: Place, text: &Text, stood: bool) -> Result<(), NoMemory>
    ensures told { OnOk result (map flaw_view flaws.new.items ≡ map flaw_view flaws.old.items ++ twice_told at text.now stood) }
{
    if is_blank(text) {
        return Ok(());
    }
    if stood {
        let n = Name {
            place: at,
            text: text.clone()?,
        };
        return named_flaw(flaws, &n, 82);
    }
    Ok(())
}

// A name that isn't the first on the left.
fn told_next<'a>(
    flaws: &mut Vec<Flaw>,
    seen: &mut NameSet<'a>,
    at: Place,
    text: &'a Text,
) -> Result<(), NoMemory>
    ensures told { OnOk result (map flaw_view flaws.new.items ≡ map flaw_view flaws.old.items ++ twice_told at text.now (has_name text.now seen.old)) }
    ensures seen { OnOk result ((y : List ℕ) → has_name y seen.new ≡ (bytes_eq y text.now || has_name y seen.old)) }
{
    let stood = seen.has(text);
    told_twice(flaws, at, text, stood)?;
    seen.insert(text)?;
    Ok(())
}

// What is no name, and is typed (83).
#[tactic(auto, using(crate::proofs::NameLemmas::told_none))]
fn told_known(flaws: &mut Vec<Flaw>, known: bool, at: Place) -> Result<(), NoMemory>
    ensures told { OnOk result (map flaw_view flaws.new.items ≡ map flaw_view flaws.old.items ++ (if known then flaw at 83 ∷ [] else [])) }
{
    if known {
        return and_flaw(*flaws.allocator(), flaws, at, 83);
    }
    Ok(())
}

// What is told of what is no name, by what comes of it.
fn told_raw(flaws: &mut Vec<Flaw>, raw: Raw) -> Result<(), NoMemory>
    ensures told { OnOk result ((ts : List Ty) → map flaw_view flaws.new.items ≡ map flaw_view flaws.old.items ++ no_name_told (raw_view ts raw)) }
{
    let Raw { part, flaws: more } = raw;
    let known = is_known(&part.answer);
    let place = part.place;
    gone_part(part);
    match move_flaws(flaws, more) {
        Ok(()) => match told_known(flaws, known, place) {
            Ok(()) => Ok(()),
            Err(error) => Err(error),
        },
        Err(error) => Err(error),
    }
}

// What is no name is typed, so that its own faults are told.
fn told_other(walk: &mut Walk, flaws: &mut Vec<Flaw>, x: &Expr) -> Result<(), NoMemory>
    ensures told { OnOk result (map flaw_view flaws.new.items ≡ map flaw_view flaws.old.items ++ go.no_name_flaws (walk_outside walk.old.env) (expr_view x.now)) }
    ensures stays { OnOk result (Stays walk.old walk.new) }
{
    match typed(walk, x) {
        Ok(raw) => match told_raw(flaws, raw) {
            Ok(()) => Ok(()),
            Err(error) => Err(error),
        },
        Err(error) => Err(error),
    }
}

// One more on the left: a name, or what is no name.
#[tactic(auto, using(crate::proofs::NameLemmas::told_name, crate::proofs::NameLemmas::told_other, crate::proofs::NameLemmas::seen_name, crate::proofs::NameLemmas::seen_other, crate::proofs::FreshLemmas::stays_not))]
fn told_one<'a>(
    walk: &mut Walk,
    flaws: &mut Vec<Flaw>,
    seen: &mut NameSet<'a>,
    x: &'a Expr,
) -> Result<(), NoMemory>
    ensures told { OnOk result (map flaw_view flaws.new.items ≡ map flaw_view flaws.old.items ++ name_told (walk_outside walk.old.env) (λ y. has_name y seen.old) (expr_view x.now)) }
    ensures seen { OnOk result ((y : List ℕ) → has_name y seen.new ≡ seen_with (λ y. has_name y seen.old) (plain_name (expr_view x.now)) y) }
    ensures stays { OnOk result (Stays walk.old walk.new) }
{
    match plain_name(x) {
        Some(text) => match told_next(flaws, seen, place_in(x), text) {
            Ok(()) => Ok(()),
            Err(error) => Err(error),
        },
        None => match told_other(walk, flaws, x) {
            Ok(()) => Ok(()),
            Err(error) => Err(error),
        },
    }
}

/// Names that stand twice on the left (82), and what is no name (83).
pub fn each_told(walk: &mut Walk, flaws: &mut Vec<Flaw>, xs: &[Expr]) -> Result<(), NoMemory>
    ensures told { OnOk result (map flaw_view flaws.new.items ≡ map flaw_view flaws.old.items ++ names_flaws (walk_outside walk.old.env) [] (exprs_of (map expr_view xs.now))) }
    ensures stays { OnOk result (Stays walk.old walk.new) }
{
    let alloc = *flaws.allocator();
    let mut seen = NameSet::new(alloc);
    for x in xs {
        told_one(walk, flaws, &mut seen, x)?;
    }
    Ok(())
}

/// Where the first of them stands, or the place of their statement.
#[tactic(auto, using(crate::proofs::NameLemmas::first_none, crate::proofs::NameLemmas::first_some))]
pub fn first_in(xs: &[Expr], at: Place) -> Place
    ensures value { result ≡ go.first_place (exprs_of (map expr_view xs.now)) at }
{
    if xs.len() == 0 {
        return at;
    }
    place_in(&xs[0])
}

// That none of them is new (83), unless one of them or a value isn't typed.
#[tactic(auto, using(crate::proofs::NameLemmas::told_none))]
fn told_new(flaws: &mut Vec<Flaw>, found: bool, fine: bool, at: Place) -> Result<(), NoMemory>
    ensures told { OnOk result (map flaw_view flaws.new.items ≡ map flaw_view flaws.old.items ++ (if found then [] else (if fine then flaw at 83 ∷ [] else []))) }
{
    if found {
        return Ok(());
    }
    match told_known(flaws, fine, at) {
        Ok(()) => Ok(()),
        Err(error) => Err(error),
    }
}

/// That none of the names is new (83), where all of them and the values are typed and nothing is told of
/// these.
pub fn none_told(
    env: &Env,
    at: Place,
    xs: &[Expr],
    freshes: &Freshes,
    raws: &Raws,
    flaws: &mut Vec<Flaw>,
) -> Result<(), NoMemory>
    ensures told { OnOk result (map flaw_view flaws.new.items ≡ map flaw_view flaws.old.items ++ new_told at (map expr_view xs.now) (freshes_view (types_of env.now) freshes.now) (raws_view (types_of env.now) raws.now)) }
{
    let _ = env;
    let found = any_new(freshes);
    let typed = names_typed(freshes);
    let values = all_fine(raws);
    let fine = both_typed(typed, values);
    match told_new(flaws, found, fine, first_in(xs, at)) {
        Ok(()) => Ok(()),
        Err(error) => Err(error),
    }
}
