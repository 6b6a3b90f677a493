//! `main`, which has no parameters and no results.
//!
//! Go, "Program execution".

ghost use Rattle.std.specs.Prelude.{◌≡◌, ◌&&◌, List};
ghost use Rattle.go_type.specs.Tree.{Ty, no_tys};
ghost use Rattle.go_type.specs.Levels.{trees_of};
ghost use Rattle.go_typing.specs.Told.{is_main, takes_something};
ghost use Rattle.go_decls.specs.SigView.{sig_found};

use crate::signatures::signature::SigTypes;
use go_items::items::count::is_main;
use go_syntax::tree::Name;
use go_type::types::TypeId;

fn is_some(ids: &[TypeId]) -> bool
    ensures value { (ts : List Ty) → result ≡ takes_something (record { params = no_tys; results = trees_of ts ids.now }) }
{
    if ids.is_empty() {
        return false;
    }
    true
}

fn takes_something(types: &SigTypes) -> bool
    ensures value { (ts : List Ty) → result ≡ takes_something (sig_found ts types.now) }
{
    if types.params.is_empty() {
        return is_some(types.results.as_slice());
    }
    true
}

/// Whether this is `main` and takes or gives something.
pub fn main_takes(n: &Name, types: &SigTypes) -> bool
    ensures value { (ts : List Ty) → result ≡ (is_main n.now && takes_something (sig_found ts types.now)) }
{
    if is_main(n) {
        return takes_something(types);
    }
    false
}
