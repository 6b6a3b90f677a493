//! Whether what stands in a statement is typed: no variable in it is unused, none of its labels has a
//! fault, and the declarations of the names that it uses are typed.

ghost use Rattle.std.specs.Prelude.{◌≡◌, List, IfOk, drop, length};
ghost use Rattle.gj_base.specs.declared.place.Place as place;
ghost use Rattle.go_walk.specs.SetsHas.{has_place};
ghost use Rattle.go_syntax.specs.View.{stmt_view};
ghost use Rattle.go_walk.specs.Seen.{names_of};
ghost use Rattle.go_typing.specs.Labels.{labels_in};
ghost use Rattle.go_typing.specs.Statements.{name_places};
ghost use Rattle.go_typing.specs.Walk as go;
ghost use Rattle.go_typing.specs.Walk.{any_among, is_among};
ghost use Rattle.go_walk.specs.Parts.{parts_since};

use crate::labels::found::{Found, in_stmt};
use crate::sets::PlaceSet;
use crate::walk::walk::Walk;
use gj_base::{NoMemory, Place};
use go_operands::answers::answer::Flaw;
use go_syntax::tree::{Name, Stmt};
use std::alloc::Global;

/// How much there was before a statement: faults, names that were declared, and uses of names whose
/// declarations aren't typed.
#[derive(Clone, Copy)]
pub struct Before {
    pub flaws: usize,
    pub declared: usize,
    pub lost: u64,
}

/// How much there is by now.
pub fn so_far(walk: &Walk, flaws: &Vec<Flaw>) -> Before
    ensures flaws { result.flaws ≡ length flaws.now.items }
    ensures declared { result.declared ≡ length walk.now.declared.items }
    ensures lost { result.lost ≡ walk.now.lost }
{
    Before {
        flaws: flaws.len(),
        declared: walk.declared.len(),
        lost: walk.lost,
    }
}

// The places from this one on.
fn set_from(alloc: Global, places: &[Place], from: usize) -> Result<PlaceSet, NoMemory>
    ensures value { IfOk result (λ s. (q : place.Place) → has_place q s ≡ is_among q (drop from places.now)) }
{
    let mut set = PlaceSet::new(alloc);
    for i in from..places.len() {
        set.insert(places[i])?;
    }
    Ok(set)
}

// Whether each name from this one on stands at a place of the set.
fn all_in(set: &PlaceSet, names: &[Name], from: usize) -> bool
    ensures value { (ps : List place.Place) → ((q : place.Place) → has_place q set.now ≡ is_among q ps) → result ≡ go.all_used (drop from names.now) ps }
{
    for i in from..names.len() {
        if !set.has(names[i].place) {
            return false;
        }
    }
    true
}

fn any_name_in(set: &PlaceSet, names: &[&Name]) -> bool
    ensures value { (ps : List place.Place) → ((q : place.Place) → has_place q set.now ≡ is_among q ps) → result ≡ any_among (name_places (names_of names.now)) ps }
{
    for n in names {
        if set.has(n.place) {
            return true;
        }
    }
    false
}

// Whether an expression uses each of the variables that statements declared since there were so many.
fn all_used(walk: &Walk, from: usize) -> Result<bool, NoMemory>
    ensures value { IfOk result (λ b. b ≡ go.all_used (drop from walk.now.declared.items) walk.now.used.items) }
{
    let used = set_from(*walk.used.allocator(), walk.used.as_slice(), 0)?;
    Ok(all_in(&used, walk.declared.as_slice(), from))
}

// Whether a label in a statement stands at one of these places.
fn label_at(alloc: Global, s: &Stmt, places: &[Place]) -> Result<bool, NoMemory>
    ensures value { IfOk result (λ b. b ≡ any_among (name_places (labels_in (stmt_view s.now))) places.now) }
{
    let mut found = Found::new(alloc);
    in_stmt(&mut found, s)?;
    let wrong = set_from(alloc, places, 0)?;
    Ok(any_name_in(&wrong, found.labels.as_slice()))
}

/// Whether what stands in a statement is typed, where nothing is told of its nodes. `wrong` says where
/// labels stand that have a fault.
pub fn parts_typed(walk: &Walk, before: Before, wrong: &[Place], s: &Stmt) -> Result<bool, NoMemory>
    ensures value { IfOk result (λ b. b ≡ parts_since before wrong.now (stmt_view s.now) walk.now) }
{
    let is_all_used = all_used(walk, before.declared)?;
    if !is_all_used {
        return Ok(false);
    }
    let is_wrong = label_at(*walk.used.allocator(), s, wrong)?;
    if is_wrong {
        return Ok(false);
    }
    Ok(walk.lost == before.lost)
}
