//! Types of which each may be known.

ghost use Rattle.std.specs.Prelude.{◌≡◌, ℕ, List, IfOk, IfSome, map, option_map};
ghost use Rattle.go_type.specs.Levels.{trees_of, IdsBelow};
ghost use Rattle.go_type.specs.Tree.{Ty};
ghost use Rattle.go_decls.specs.Bound.{type_view, TypesBelow};
ghost use Rattle.go_decls.specs.SigView.{all_of};

use gj_base::NoMemory;
use go_type::types::TypeId;
use std::alloc::Global;

/// All of them, where each is known.
#[tactic(auto, using(crate::proofs::KnownLemmas::some_step, crate::proofs::KnownLemmas::none_step, crate::proofs::KnownLemmas::none_here, crate::proofs::KnownLemmas::some_end, crate::proofs::KnownLemmas::below_step))]
pub fn all_known(alloc: Global, types: &[Option<TypeId>]) -> Result<Option<Vec<TypeId>>, NoMemory>
    ensures value { IfOk result (λ r. (ts : List Ty) → option_map (λ v. trees_of ts v.items) r ≡ all_of (map (type_view ts) types.now)) }
    ensures within { IfOk result (λ r. (n : ℕ) → TypesBelow n types.now → IfSome r (λ v. IdsBelow n v.items)) }
{
    let mut ids = Vec::new(alloc);
    for ty in types {
        match ty {
            Some(t) => ids.push(*t)?,
            None => return Ok(None),
        }
    }
    Ok(Some(ids))
}
