//! The numbers of the names that are declared.

ghost use Rattle.std.specs.Prelude.{◌≡◌, ℕ, List, IfOk, map};
ghost use Rattle.go_items.specs.ItemView.{item_view};
ghost use Rattle.go_walk.specs.SetsHas.{number_of};
ghost use Rattle.go_items.specs.Leads.{first_number};

use gj_base::NoMemory;
use go_items::items::item::{Item, name_of};
use go_walk::sets::NameMap;
use std::alloc::Global;

/// Each name with the number of its first declaration.
pub fn numbers<'a>(alloc: Global, items: &[Item<'a>]) -> Result<NameMap<'a>, NoMemory>
    ensures value { IfOk result (λ m. (x : List ℕ) → number_of x m ≡ first_number x (map item_view items.now)) }
{
    let mut all = NameMap::new(alloc);
    for i in 0..items.len() {
        let name = name_of(&items[i]);
        all.insert(&name.text, i)?;
    }
    Ok(all)
}
