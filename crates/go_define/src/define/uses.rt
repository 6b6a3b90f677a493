//! Variables that the left of a short variable declaration uses.
//!
//! Own: a name there isn't used. It is declared there, or it stands in the same scope, where its own
//! declaration counts.

ghost use Rattle.std.specs.Prelude.{◌≡◌, List, OnOk, map};
ghost use Rattle.go_type.specs.Tree.{Ty};
ghost use Rattle.go_syntax.specs.View.{expr_view, exprs_of};
ghost use Rattle.go_typing.specs.Assign as go;
ghost use Rattle.go_walk.specs.WalkView.{walk_of};
ghost use Rattle.go_assign.specs.Moves.{Moves};

use gj_base::NoMemory;
use go_assign::assign::bare::is_bare;
use go_assign::assign::uses::use_left;
use go_syntax::tree::Expr;
use go_walk::walk::Walk;

#[tactic(auto, using(crate::proofs::UseLemmas::bare_unused, crate::proofs::UseLemmas::other_used))]
fn use_fresh(walk: &mut Walk, e: &Expr) -> Result<(), NoMemory>
    ensures value { OnOk result ((ts : List Ty) → walk_of ts walk.new ≡ go.fresh_use (expr_view e.now) (walk_of ts walk.old)) }
    ensures env { walk.new.env ≡ walk.old.env }
{
    if is_bare(e) {
        return Ok(());
    }
    match use_left(walk, e) {
        Ok(()) => Ok(()),
        Err(error) => Err(error),
    }
}

/// The variables that the left of a short variable declaration uses.
#[tactic(auto, using(crate::proofs::UseLemmas::uses_step, crate::proofs::UseLemmas::uses_end, go_assign::proofs::WalkLemmas::moves_from))]
pub fn fresh_uses(walk: &mut Walk, es: &[Expr]) -> Result<(), NoMemory>
    ensures moves { OnOk result (Moves (go.fresh_uses (exprs_of (map expr_view es.now))) walk.old walk.new) }
    ensures env { OnOk result (walk.new.env ≡ walk.old.env) }
{
    for e in es {
        use_fresh(walk, e)?;
    }
    Ok(())
}
