//! Method sets.

ghost use Rattle.std.specs.Prelude.{◌≡◌, ◌<◌, IfOk, [], map};
ghost use Rattle.go_type.specs.Levels.{tree_of, SpecsBelow};
ghost use Rattle.go_type.specs.Table.{places, names, size};
ghost use Rattle.go_type.specs.MethodList.{IsMethodSet, spec_of};
ghost use Rattle.go_type.specs.Reached.{Holds, AreIds, IsClosed};
ghost use Rattle.go_type.specs.Tried.{AreAllMethods};

use crate::implements::receiver;
use crate::lists::Methods;
use crate::reach::{id_at, reach};
use crate::table::TypeTable;
use crate::tries::try_own;
use crate::types::{MethodSpec, TypeId};
use gj_base::NoMemory;
use indexmap::IndexSet;
use std::alloc::Global;

fn no_methods(alloc: Global) -> Vec<MethodSpec>
    ensures { result.items ≡ [] }
{
    Vec::new(alloc)
}

// The methods that are found from a type, where a pointer was followed to it or not, by the types that it
// reaches.
fn methods_of(
    alloc: Global,
    table: &TypeTable,
    t: TypeId,
    indirect: bool,
    ids: &IndexSet<u64>,
) -> Result<Vec<MethodSpec>, NoMemory>
    requires t { t.0 < size table.now }
    requires start { Holds ids.now.keys t.0 }
    requires below { AreIds (size table.now) ids.now.keys }
    requires closed { IsClosed (names table.now) (places table.now) ids.now.keys }
    ensures { IfOk result (λ v. AreAllMethods (size table.now) (places table.now) (names table.now) (tree_of (places table.now) t) indirect v.items) }
{
    let mut specs = no_methods(alloc);
    for next in 0..table.len() {
        match id_at(ids, next) {
            Some(id) => try_own(alloc, table, t, indirect, TypeId(id), &mut specs)?,
            None => return Ok(specs),
        }
    }
    Ok(specs)
}

// The same.
fn methods_from(
    alloc: Global,
    table: &TypeTable,
    t: TypeId,
    indirect: bool,
) -> Result<Vec<MethodSpec>, NoMemory>
    requires { t.0 < size table.now }
    ensures { IfOk result (λ v. AreAllMethods (size table.now) (places table.now) (names table.now) (tree_of (places table.now) t) indirect v.items) }
{
    let ids = reach(alloc, table, t)?;
    methods_of(alloc, table, t, indirect, &ids)
}

// The methods of a type.
fn method_list(alloc: Global, table: &TypeTable, t: TypeId) -> Result<Vec<MethodSpec>, NoMemory>
    requires { t.0 < size table.now }
    ensures exact { IfOk result (λ v. IsMethodSet (names table.now) (tree_of (places table.now) t) (map (spec_of (places table.now)) v.items)) }
    ensures within { IfOk result (λ v. SpecsBelow (size table.now) v.items) }
{
    match receiver(table, t) {
        Some(from) => methods_from(alloc, table, from.0, from.1),
        None => Ok(no_methods(alloc)),
    }
}

impl TypeTable {
    ghost use Rattle.std.specs.Prelude.{◌<◌, IfOk, map};
    ghost use Rattle.go_type.specs.Levels.{tree_of, SpecsBelow};
    ghost use Rattle.go_type.specs.Table.{places, names, size};
    ghost use Rattle.go_type.specs.MethodList.{IsMethodSet, spec_of};

    /// The method set of the type, sorted by name, then package. The package of a method is that of its
    /// declaration, and empty where its name is exported.
    ///
    /// Go, "Method sets".
    pub fn method_set(&self, alloc: Global, t: TypeId) -> Result<Methods, NoMemory>
        requires { t.0 < size self.now }
        ensures exact { IfOk result (λ ms. IsMethodSet (names self.now) (tree_of (places self.now) t) (map (spec_of (places self.now)) ms)) }
        ensures within { IfOk result (λ ms. SpecsBelow (size self.now) ms) }
    {
        Ok(Methods::from_vec(method_list(alloc, self, t)?))
    }
}
