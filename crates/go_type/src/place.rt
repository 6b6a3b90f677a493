//! The place of a method in a sorted list.

ghost use Rattle.std.specs.Prelude.{◌≡◌, ◌≤◌, length, slice_get};
ghost use Rattle.std.specs.Ordering.{is_lt};
ghost use Rattle.go_type.specs.MethodList.{name_cmp};
ghost use Rattle.go_type.specs.Tried.{place_of, is_named};

use crate::types::MethodSpec;
use gj_base::Text;
use std::cmp::Ordering;

// Whether the one name stands before the other, and of one name the one package before the other.
fn is_before(name: &Text, package: &Text, other: &Text, home: &Text) -> bool
    ensures { result ≡ is_lt (name_cmp name.now «package».now other.now home.now) }
{
    match name.cmp(other) {
        Ordering::Less => true,
        Ordering::Greater => false,
        Ordering::Equal => match package.cmp(home) {
            Ordering::Less => true,
            _ => false,
        },
    }
}

/// How many methods at the front stand before the name.
pub fn place_of(specs: &[MethodSpec], name: &Text, package: &Text) -> usize
    ensures value { result ≡ place_of name.now «package».now specs.now }
    ensures within { result ≤ length specs.now }
{
    let mut place = 0;
    let mut rest = specs;
    'specs: while let Some((spec, others)) = rest.split_first() {
        if !is_before(&spec.name, &spec.package, name, package) {
            return place;
        }
        place += 1;
        rest = others;
    }
    place
}

/// Whether the method at a place has the name.
pub fn is_named(specs: &[MethodSpec], place: usize, name: &Text, package: &Text) -> bool
    ensures { result ≡ is_named name.now «package».now (slice_get specs.now place) }
{
    match specs.get(place) {
        Some(spec) => spec.name == *name && spec.package == *package,
        None => false,
    }
}
