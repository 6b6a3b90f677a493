//! Whether a type has the methods of an interface.

ghost use Rattle.std.specs.Prelude.{◌≡◌, ◌<◌, ◌↔◌, ◌||◌, Bool, IsTrue};
ghost use Rattle.go_type.specs.Tree.{no_specs};
ghost use Rattle.go_type.specs.Levels.{level, tree_of, trees_of, specs_of, Below, SigBelow, SpecsBelow};
ghost use Rattle.go_type.specs.Table.{places, names, size, name_count};
ghost use Rattle.go_type.specs.Members.{sought};
ghost use Rattle.go_type.specs.MethodSet.{HasMethod, Has, IsImplemented, Implements, HasFrom};
ghost use Rattle.go_type.specs.Receivers.{Begins, fits};

use crate::hits::Hit;
use crate::shallow::shallowest;
use crate::table::TypeTable;
use crate::types::{GoType, MethodSpec, Sig, TypeId};

/// Where the methods of a type are looked for, and whether a pointer is followed to there.
pub fn receiver(table: &TypeTable, t: TypeId) -> Option<(TypeId, bool)>
    requires { t.0 < size table.now }
    ensures { Begins (size table.now) (places table.now) (names table.now) (tree_of (places table.now) t) result }
{
    match table.get(t) {
        GoType::Pointer(target) => match table.get(table.underlying(*target)) {
            GoType::Interface(_) => None,
            _ => Some((*target, true)),
        },
        _ => Some((t, false)),
    }
}

// Whether what was found is a method of the signature that is reached.
fn fits(hit: Hit<'_>, indirect: bool, sig: &Sig) -> bool
    ensures { result ≡ fits hit.entry indirect sig.now }
{
    match hit {
        Hit::Method(_, on_pointer, follows, own) => {
            (!on_pointer || (follows || indirect)) && *own == *sig
        }
        _ => false,
    }
}

// Whether the type, where a pointer was followed to it or not, has the method.
fn has_from(table: &TypeTable, t: TypeId, indirect: bool, spec: &MethodSpec) -> bool
    requires t { t.0 < size table.now }
    requires sig { SigBelow (size table.now) spec.now.sig }
    ensures { IsTrue result ↔ HasFrom (names table.now) (sought spec.now.name spec.now.package) (trees_of (places table.now) spec.now.sig.params) (trees_of (places table.now) spec.now.sig.results) spec.now.sig.variadic (tree_of (places table.now) t) indirect }
{
    match shallowest(table, t, &spec.name, &spec.package) {
        Some((_, hit)) => fits(hit, indirect, &spec.sig),
        None => false,
    }
}

// Whether the method is in the method set of the type.
fn has_method(table: &TypeTable, t: TypeId, spec: &MethodSpec) -> bool
    requires t { t.0 < size table.now }
    requires sig { SigBelow (size table.now) spec.now.sig }
    ensures { IsTrue result ↔ HasMethod (names table.now) (tree_of (places table.now) t) (sought spec.now.name spec.now.package) (trees_of (places table.now) spec.now.sig.params) (trees_of (places table.now) spec.now.sig.results) spec.now.sig.variadic }
{
    match receiver(table, t) {
        Some((base, indirect)) => has_from(table, base, indirect, spec),
        None => false,
    }
}

// Whether the type has all these methods.
fn has_all(table: &TypeTable, t: TypeId, specs: &[MethodSpec]) -> bool
    requires t { t.0 < size table.now }
    requires specs { SpecsBelow (size table.now) specs.now }
    ensures { IsTrue result ↔ Has (names table.now) (tree_of (places table.now) t) (specs_of (places table.now) specs.now) }
{
    let mut rest = specs;
    'specs: while let Some((spec, others)) = rest.split_first() {
        if !has_method(table, t, spec) {
            return false;
        }
        rest = others;
    }
    true
}

// Whether there are no methods.
#[tactic(auto, using(crate::proofs::MethodLemmas::no_method))]
fn has_none(table: &TypeTable, specs: &[MethodSpec]) -> bool
    ensures { IsTrue result ↔ (specs_of (places table.now) specs.now ≡ no_specs) }
{
    specs.is_empty()
}

// Whether the type implements an interface of these methods.
fn is_implemented(table: &TypeTable, v: TypeId, specs: &[MethodSpec]) -> bool
    requires t { v.0 < size table.now }
    requires specs { SpecsBelow (size table.now) specs.now }
    ensures { IsTrue result ↔ IsImplemented (names table.now) (tree_of (places table.now) v) (specs_of (places table.now) specs.now) }
{
    match table.get(v) {
        GoType::Untyped(_) => has_none(table, specs),
        GoType::Nil | GoType::Tuple(_) => false,
        _ => has_all(table, v, specs),
    }
}

/// Whether the type implements the interface for which the other stands.
///
/// Go, "Interface types".
pub fn implements(table: &TypeTable, v: TypeId, t: TypeId) -> bool
    requires v { v.0 < size table.now }
    requires t { t.0 < size table.now }
    ensures { IsTrue result ↔ Implements (names table.now) (tree_of (places table.now) v) (tree_of (places table.now) t) }
{
    match table.get(table.underlying(t)) {
        GoType::Interface(specs) => is_implemented(table, v, specs.as_slice()),
        _ => false,
    }
}
