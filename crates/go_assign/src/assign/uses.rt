//! Variables that left sides use.
//!
//! Own: a variable that is the whole of a left side isn't used there; whether its declaration is typed
//! counts.

ghost use Rattle.std.specs.Prelude.{◌≡◌, List, OnOk, map};
ghost use Rattle.go_type.specs.Tree.{Ty};
ghost use Rattle.go_syntax.specs.View.{expr_view, exprs_of};
ghost use Rattle.go_typing.specs.Assign as go;
ghost use Rattle.go_walk.specs.WalkView.{walk_of};
ghost use Rattle.go_assign.specs.Moves.{Moves};

use crate::assign::bare::is_name;
use gj_base::NoMemory;
use go_syntax::tree::Expr;
use go_walk::walk::Walk;
use go_walk::walk::uses::{lose_expr, use_expr};

/// The variables that one left side uses.
#[tactic(auto, using(crate::proofs::UseLemmas::name_unused, crate::proofs::UseLemmas::other_used))]
pub fn use_left(walk: &mut Walk, e: &Expr) -> Result<(), NoMemory>
    ensures value { OnOk result ((ts : List Ty) → walk_of ts walk.new ≡ go.left_use (expr_view e.now) (walk_of ts walk.old)) }
    ensures env { walk.new.env ≡ walk.old.env }
{
    if is_name(e) {
        return match lose_expr(walk, e) {
            Ok(()) => Ok(()),
            Err(error) => Err(error),
        };
    }
    match use_expr(walk, e) {
        Ok(()) => Ok(()),
        Err(error) => Err(error),
    }
}

/// The variables that left sides use.
#[tactic(auto, using(crate::proofs::UseLemmas::uses_step, crate::proofs::UseLemmas::uses_end, crate::proofs::WalkLemmas::moves_from))]
pub fn left_uses(walk: &mut Walk, es: &[Expr]) -> Result<(), NoMemory>
    ensures moves { OnOk result (Moves (go.left_uses (exprs_of (map expr_view es.now))) walk.old walk.new) }
    ensures env { OnOk result (walk.new.env ≡ walk.old.env) }
{
    for e in es {
        use_left(walk, e)?;
    }
    Ok(())
}
