//! Expressions of a statement, typed and used in its walk.
//!
//! Go, "Expressions".

ghost use Rattle.std.specs.Prelude.{◌≡◌, OnOk, IfOk, map};
ghost use Rattle.go_type.specs.Table.{size};
ghost use Rattle.go_syntax.specs.View.{expr_view, exprs_of};
ghost use Rattle.go_typing.specs.Typing.{place_of};
ghost use Rattle.go_operands.specs.EnvView.{table_of};
ghost use Rattle.go_calls.specs.Words.{types_of, names_of, scopes_of};
ghost use Rattle.go_typing.specs.Walk.{uses, uses_all};
ghost use Rattle.go_expr.specs.Raw.{raw_of, raws_of, raw_view, raws_view, RawBelow, RawsBelow};
ghost use Rattle.go_assign.specs.Moves.{Moves, Stays};

use gj_base::{NoMemory, Place};
use go_expr::typed::{Raw, Raws, all_in, raw_in};
use go_syntax::tree::Expr;
use go_walk::walk::Walk;
use go_walk::walk::uses::{use_expr, use_exprs};

/// Where an expression stands.
#[tactic(auto, using(crate::proofs::PlaceLemmas::stands))]
pub fn place_in(e: &Expr) -> Place
    ensures value { result ≡ place_of (expr_view e.now) }
{
    e.place
}

/// An expression, typed once in the scopes of the walk.
#[tactic(auto, using(crate::proofs::WalkLemmas::stays_grown, crate::proofs::WalkLemmas::raw_grown))]
pub fn typed(walk: &mut Walk, e: &Expr) -> Result<Raw, NoMemory>
    ensures view { IfOk result (λ r. raw_view (types_of walk.new.env) r ≡ raw_of (names_of walk.old.env) (scopes_of walk.old.env) (expr_view e.now)) }
    ensures within { IfOk result (λ r. RawBelow (size (table_of walk.new.env)) r) }
    ensures stays { OnOk result (Stays walk.old walk.new) }
{
    let alloc = *walk.used.allocator();
    match raw_in(alloc, &mut walk.env, e) {
        Ok(raw) => Ok(raw),
        Err(error) => Err(error),
    }
}

/// Expressions, each typed once in the scopes of the walk.
#[tactic(auto, using(crate::proofs::WalkLemmas::stays_grown, crate::proofs::WalkLemmas::raws_grown))]
pub fn all_typed(walk: &mut Walk, es: &[Expr]) -> Result<Raws, NoMemory>
    ensures view { IfOk result (λ rs. raws_view (types_of walk.new.env) rs ≡ raws_of (names_of walk.old.env) (scopes_of walk.old.env) (map expr_view es.now)) }
    ensures within { IfOk result (λ rs. RawsBelow (size (table_of walk.new.env)) rs) }
    ensures stays { OnOk result (Stays walk.old walk.new) }
{
    let alloc = *walk.used.allocator();
    match all_in(alloc, &mut walk.env, es) {
        Ok(raws) => Ok(raws),
        Err(error) => Err(error),
    }
}

/// The variables that an expression or a type uses.
#[tactic(auto, using(crate::proofs::WalkLemmas::moves_from))]
pub fn used(walk: &mut Walk, e: &Expr) -> Result<(), NoMemory>
    ensures moves { OnOk result (Moves (uses (expr_view e.now)) walk.old walk.new) }
    ensures env { walk.new.env ≡ walk.old.env }
{
    match use_expr(walk, e) {
        Ok(()) => Ok(()),
        Err(error) => Err(error),
    }
}

/// The variables that expressions use.
#[tactic(auto, using(crate::proofs::WalkLemmas::moves_from))]
pub fn all_used(walk: &mut Walk, es: &[Expr]) -> Result<(), NoMemory>
    ensures moves { OnOk result (Moves (uses_all (exprs_of (map expr_view es.now))) walk.old walk.new) }
    ensures env { walk.new.env ≡ walk.old.env }
{
    match use_exprs(walk, es) {
        Ok(()) => Ok(()),
        Err(error) => Err(error),
    }
}
