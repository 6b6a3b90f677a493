//! The items of a script: behind the parts of the library the items of the tables that are reached, in
//! their order, and `$start`, which is the last one.

ghost use Rattle.std.specs.Prelude.{◌≡◌, ◌<◌, ◌++◌, ◌∷◌, [], length, List, Some, IfOk};
ghost use Rattle.std.specs.List.{slice_get};
ghost use Rattle.js_tree.specs.declared.tree.JsItem.{JsItem};
ghost use Rattle.js_pool.specs.declared.node.Item.{Item};
ghost use Rattle.js_emit.specs.Items.{is_kept, AddsTrees, AddsOne, AddsKept};

use crate::program::EmitRefusal;
use crate::reach::Reach;
use gj_base::NoMemory;
use js_pool::{Item, Pool};
use js_tree::JsItem;

// Whether a script has the item with a number, of so many.
fn keeps(reach: &Reach, n: usize, many: usize) -> bool
    requires { n < many }
    ensures { result ≡ is_kept reach.now.reached.items many n }
{
    reach.has_item(n) || n + 1 == many
}

fn add_item(items: &mut Vec<JsItem>, item: JsItem) -> Result<(), NoMemory>
    ensures { IfOk result (λ _. items.new.items ≡ items.old.items ++ item ∷ []) }
{
    items.push(item)?;
    Ok(())
}

fn add_tree(items: &mut Vec<JsItem>, pool: &Pool, item: Item) -> Result<(), EmitRefusal>
    ensures { IfOk result (λ _. AddsTrees pool.now (item ∷ []) items.old.items items.new.items) }
{
    let tree = pool.item_tree(item)?;
    add_item(items, tree)?;
    Ok(())
}

fn add_one(items: &mut Vec<JsItem>, pool: &Pool, reach: &Reach, n: usize) -> Result<(), EmitRefusal>
    requires { n < length pool.now.items.items }
    ensures { IfOk result (λ _. (x : Item) × (slice_get pool.now.items.items n ≡ Some x) × AddsOne pool.now (is_kept reach.now.reached.items (length pool.now.items.items) n) x items.old.items items.new.items) }
{
    let made = pool.items.as_slice();
    match made.get(n) {
        Some(item) => {
            if keeps(reach, n, made.len()) {
                return add_tree(items, pool, *item);
            }
            Ok(())
        }
        None => Err(EmitRefusal::Internal),
    }
}

/// Adds the trees of the items of the tables that a script has, in their order.
pub fn add_kept(items: &mut Vec<JsItem>, pool: &Pool, reach: &Reach) -> Result<(), EmitRefusal>
    ensures { IfOk result (λ _. AddsKept pool.now reach.now.reached.items items.old.items items.new.items) }
{
    for n in 0..pool.items.len() {
        add_one(items, pool, reach, n)?;
    }
    Ok(())
}
