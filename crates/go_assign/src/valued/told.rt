//! What is told of several expressions.

ghost use Rattle.std.specs.Prelude.{◌≡◌, ◌∷◌, ◌++◌, [], List, OnOk, map};
ghost use Rattle.go_type.specs.Tree.{Ty};
ghost use Rattle.go_typing.specs.Answer.{flaw};
ghost use Rattle.go_operands.specs.AnswerView.{flaw_view};
ghost use Rattle.go_typing.specs.Assign.{where_typed};
ghost use Rattle.go_expr.specs.Raw.{raws_view};
ghost use Rattle.go_assign.specs.Settled.{all_known, all_told};

use gj_base::{NoMemory, Place};
use go_expr::typed::{Raw, Raws, gone_raws};
use go_operands::answers::answer::Flaw;
use go_operands::answers::rule::{and_flaw, is_known};
use go_operands::operands::part::gone_part;

/// Faults are told after those that were told before.
pub fn move_flaws(flaws: &mut Vec<Flaw>, more: Vec<Flaw>) -> Result<(), NoMemory>
    ensures told { OnOk result (map flaw_view flaws.new.items ≡ map flaw_view flaws.old.items ++ map flaw_view more.items) }
{
    let mut more = more;
    flaws.append(&mut more)?;
    Ok(())
}

/// Whether all are typed.
#[tactic(auto, using(crate::proofs::ToldLemmas::known_step, crate::proofs::ToldLemmas::known_stop, crate::proofs::ToldLemmas::known_end))]
pub fn all_known(raws: &Raws) -> bool
    ensures value { (ts : List Ty) → result ≡ all_known (raws_view ts raws.now) }
{
    for raw in &raws.items {
        if !is_known(&raw.part.answer) {
            return false;
        }
    }
    true
}

// The faults of one, of which the rest is let go.
fn taken_flaws(raw: Raw) -> Vec<Flaw>
    ensures value { result.items ≡ raw.flaws.items }
{
    let Raw { part, flaws } = raw;
    gone_part(part);
    flaws
}

/// The faults of all are told, in order.
#[tactic(auto, using(crate::proofs::ToldLemmas::told_step, crate::proofs::ToldLemmas::told_end))]
pub fn move_all(flaws: &mut Vec<Flaw>, raws: Raws) -> Result<(), NoMemory>
    ensures told { OnOk result ((ts : List Ty) → map flaw_view flaws.new.items ≡ map flaw_view flaws.old.items ++ all_told (raws_view ts raws)) }
{
    let Raws { items } = raws;
    let mut items = items;
    while let Some(raw) = items.pop() {
        match move_flaws(flaws, taken_flaws(raw)) {
            Ok(()) => {}
            Err(error) => {
                gone_raws(Raws { items });
                return Err(error);
            }
        }
    }
    items.destroy_empty();
    Ok(())
}

/// A fault of a statement is told where all its parts are typed and have none, else theirs.
pub fn told_where_typed(
    flaws: &mut Vec<Flaw>,
    known: bool,
    parts: Vec<Flaw>,
    at: Place,
    code: u16,
) -> Result<(), NoMemory>
    ensures told { OnOk result (map flaw_view flaws.new.items ≡ map flaw_view flaws.old.items ++ where_typed known (map flaw_view parts.items) (flaw at code ∷ [])) }
{
    if known && parts.is_empty() {
        return and_flaw(*flaws.allocator(), flaws, at, code);
    }
    move_flaws(flaws, parts)
}
