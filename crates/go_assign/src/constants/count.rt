//! Whether a specification has as many values as names.
//!
//! Go, "Constant declarations", "Variable declarations".

ghost use Rattle.std.specs.Prelude.{◌≡◌, ◌++◌, List, OnOk, map};
ghost use Rattle.go_type.specs.Tree.{Ty};
ghost use Rattle.go_operands.specs.AnswerView.{flaw_view};
ghost use Rattle.go_typing.specs.Declare.{spec_known, count_told};
ghost use Rattle.go_expr.specs.Raw.{raws_view};
ghost use Rattle.go_assign.specs.Settled.{all_known, all_told};
ghost use Rattle.go_assign.specs.SpecView.{spec_view};

use crate::constants::types::SpecType;
use crate::valued::{all_known, move_all, told_where_typed};
use gj_base::{NoMemory, Place};
use go_expr::typed::Raws;
use go_operands::answers::answer::Flaw;

// Whether there is no type, or one that is typed.
fn is_known(s: SpecType) -> bool
    ensures value { (ts : List Ty) → result ≡ spec_known (spec_view ts s) }
{
    match s {
        SpecType::Missing => true,
        SpecType::Of(_) => true,
        SpecType::Lost => false,
    }
}

/// That there are not as many values as names (84), where the type and the values are typed, else what is
/// told of the values.
pub fn count_told(flaws: &mut Vec<Flaw>, s: SpecType, at: Place, raws: Raws) -> Result<(), NoMemory>
    ensures told { OnOk result ((ts : List Ty) → map flaw_view flaws.new.items ≡ map flaw_view flaws.old.items ++ count_told (spec_view ts s) at (all_known (raws_view ts raws)) (all_told (raws_view ts raws))) }
{
    let typed = is_known(s);
    let known = all_known(&raws);
    let mut parts = Vec::new(*flaws.allocator());
    move_all(&mut parts, raws)?;
    told_where_typed(flaws, typed && known, parts, at, 84)?;
    Ok(())
}
