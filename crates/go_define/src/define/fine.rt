//! Values that are all typed, of which nothing is told.
//!
//! Own: no fault of the names rests on values that have faults of their own.

ghost use Rattle.std.specs.Prelude.{◌≡◌, List, map};
ghost use Rattle.go_type.specs.Tree.{Ty};
ghost use Rattle.go_operands.specs.AnswerView.{flaw_view};
ghost use Rattle.go_expr.specs.Raw.{raw_view, raws_view};
ghost use Rattle.go_define.specs.DefineTold.{is_clean, is_fine, all_fine};

use go_expr::typed::{Raw, Raws};
use go_operands::answers::answer::Flaw;
use go_operands::answers::rule::is_known;

#[tactic(auto, using(crate::proofs::FineLemmas::clean_none, crate::proofs::FineLemmas::clean_some))]
fn is_clean(flaws: &Vec<Flaw>) -> bool
    ensures value { result ≡ is_clean (map flaw_view flaws.now.items) }
{
    if flaws.len() == 0 {
        return true;
    }
    false
}

#[tactic(auto, using(crate::proofs::FineLemmas::fine_not, crate::proofs::FineLemmas::fine_by))]
fn is_fine(raw: &Raw) -> bool
    ensures value { (ts : List Ty) → result ≡ is_fine (raw_view ts raw.now) }
{
    if !is_known(&raw.part.answer) {
        return false;
    }
    is_clean(&raw.flaws)
}

/// Whether all are typed and nothing is told of them.
#[tactic(auto, using(crate::proofs::FineLemmas::fine_step, crate::proofs::FineLemmas::fine_stop, crate::proofs::FineLemmas::fine_end))]
pub fn all_fine(raws: &Raws) -> bool
    ensures value { (ts : List Ty) → result ≡ all_fine (raws_view ts raws.now) }
{
    for raw in &raws.items {
        if !is_fine(raw) {
            return false;
        }
    }
    true
}
