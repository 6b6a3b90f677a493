//! Lists of types and of variables.

ghost use Rattle.std.specs.Prelude.{◌≡◌, true, List, map, option_map};
ghost use Rattle.go_type.specs.Tree.{Ty};
ghost use Rattle.go_type.specs.Levels.{tree_of, trees_of};
ghost use Rattle.go_core.specs.CoreView.{var_of};
ghost use Rattle.go_core.specs.TypeOf.{var_type};
ghost use Rattle.go_sound_parts.specs.Lists.{last_type};

use go_core::node::{Var, VarId};
use go_type::types::{Sig, TypeId};

/// Whether the lists hold the same types.
pub fn same_types(a: &[TypeId], b: &[TypeId]) -> bool
    ensures is { result ≡ true → (ts : List Ty) → trees_of ts a.now ≡ trees_of ts b.now }
{
    match a.split_first() {
        Some((x, xs)) => match b.split_first() {
            Some((y, ys)) => x.0 == y.0 && same_types(xs, ys),
            None => false,
        },
        None => b.is_empty(),
    }
}

/// The type of the first variable with a number.
pub fn first_type(vars: &[Var], v: VarId) -> Option<TypeId>
    ensures is { (ts : List Ty) → option_map (tree_of ts) result ≡ var_type v.0 (map (var_of ts) vars.now) }
{
    for x in vars {
        if x.id.0 == v.0 {
            return Some(x.ty);
        }
    }
    None
}

/// The type of the last variable with a number, or else this one.
pub fn last_type(vars: &[Var], v: VarId, before: Option<TypeId>) -> Option<TypeId>
    ensures is { (ts : List Ty) → option_map (tree_of ts) result ≡ last_type v.0 (map (var_of ts) vars.now) (option_map (tree_of ts) before) }
{
    let mut t = before;
    for x in vars {
        if x.id.0 == v.0 {
            t = Some(x.ty);
        }
    }
    t
}
