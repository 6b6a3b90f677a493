//! Selection.

ghost use Rattle.std.specs.Prelude.{◌≡◌, ◌<◌, IfOk, [], ◌∷◌};
ghost use Rattle.go_type.specs.Levels.{tree_of};
ghost use Rattle.go_type.specs.Table.{places, names, size};
ghost use Rattle.go_type.specs.Members.{sought, members_at, NoneBefore};
ghost use Rattle.go_type.specs.Hits.{Sees, IsSomething};
ghost use Rattle.go_type.specs.Selection.{Selects, SelectsField};
ghost use Rattle.go_type.specs.declared.steps.Step.TheVariants as step;

use crate::hits::Hit;
use crate::paths::steps_at;
use crate::shallow::shallowest;
use crate::steps::{Path, Selected, Step};
use crate::table::TypeTable;
use crate::types::{GoType, TypeId};
use gj_base::{NoMemory, Text};
use std::alloc::Global;

// What was found at the shallowest depth, behind steps that lead to the type.
fn selected(
    table: &TypeTable,
    t: TypeId,
    name: &Text,
    package: &Text,
    depth: u64,
    hit: Hit<'_>,
    before: Vec<Step>,
) -> Result<Selected, NoMemory>
    requires t { t.0 < size table.now }
    requires before { NoneBefore (names table.now) (sought name.now «package».now) (tree_of (places table.now) t) depth }
    requires here { Sees (places table.now) (members_at (names table.now) (sought name.now «package».now) depth (tree_of (places table.now) t)) hit }
    requires something { IsSomething hit }
    ensures { IfOk result (Selects (names table.now) (places table.now) (sought name.now «package».now) (tree_of (places table.now) t) before.items) }
{
    match hit {
        Hit::Nothing => unreachable!(),
        Hit::Several => Ok(Selected::Ambiguous),
        Hit::Field => {
            let steps = steps_at(table, t, name, package, depth, before)?;
            Ok(Selected::Field(Path::from_vec(steps)))
        }
        Hit::Method(id, _, _, _) => {
            let steps = steps_at(table, t, name, package, depth, before)?;
            Ok(Selected::Method(Path::from_vec(steps), id))
        }
    }
}

// What the name selects in a type, behind steps that lead to the type.
fn select_at(
    table: &TypeTable,
    t: TypeId,
    name: &Text,
    package: &Text,
    before: Vec<Step>,
) -> Result<Selected, NoMemory>
    requires { t.0 < size table.now }
    ensures { IfOk result (Selects (names table.now) (places table.now) (sought name.now «package».now) (tree_of (places table.now) t) before.items) }
{
    match shallowest(table, t, name, package) {
        Some((depth, hit)) => selected(table, t, name, package, depth, hit, before),
        None => Ok(Selected::Missing),
    }
}

fn one_pointer(alloc: Global) -> Result<Vec<Step>, NoMemory>
    ensures { IfOk result (λ v. v.items ≡ step.Pointer ∷ []) }
{
    let mut steps = Vec::new(alloc);
    steps.push(Step::Pointer)?;
    Ok(steps)
}

// A field of what a named pointer points to.
#[tactic(auto, using(crate::proofs::SelectLemmas::field_only))]
fn select_field(
    alloc: Global,
    table: &TypeTable,
    t: TypeId,
    name: &Text,
    package: &Text,
) -> Result<Selected, NoMemory>
    requires { t.0 < size table.now }
    ensures { IfOk result (SelectsField (names table.now) (places table.now) (sought name.now «package».now) (tree_of (places table.now) t)) }
{
    match select_at(table, t, name, package, one_pointer(alloc)?)? {
        Selected::Method(_, _) => Ok(Selected::Missing),
        selected => Ok(selected),
    }
}

impl TypeTable {
    ghost use Rattle.std.specs.Prelude.{◌<◌, IfOk};
    ghost use Rattle.go_type.specs.Levels.{tree_of};
    ghost use Rattle.go_type.specs.Table.{places, names, size};
    ghost use Rattle.go_type.specs.Members.{sought};
    ghost use Rattle.go_type.specs.Selection.{IsSelection};

    /// What the name selects in a value of the type. The package is that of the name, and empty where
    /// it is exported.
    ///
    /// Go, "Selectors".
    pub fn select_path(
        &self,
        alloc: Global,
        t: TypeId,
        name: &Text,
        package: &Text,
    ) -> Result<Selected, NoMemory>
        requires { t.0 < size self.now }
        ensures { IfOk result (IsSelection (names self.now) (places self.now) (sought name.now «package».now) (tree_of (places self.now) t)) }
    {
        match self.get(t) {
            GoType::Pointer(target) => match self.get(self.underlying(*target)) {
                GoType::Interface(_) => Ok(Selected::Missing),
                _ => select_at(self, *target, name, package, one_pointer(alloc)?),
            },
            _ => match self.get(self.underlying(t)) {
                GoType::Pointer(target) => select_field(alloc, self, *target, name, package),
                _ => select_at(self, t, name, package, Vec::new(alloc)),
            },
        }
    }
}
